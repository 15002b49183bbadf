// Fronts of a network: what is cut off ends too early, or in an item.
use std::test::Fail;
use tag_outline::{OutlineFault, read_outline};

const NETWORK: &str = "<?xml version=\"1.0\" encoding=\"UTF-8\"?>\n\
    <!-- a small network -->\n\
    <network xmlns=\"g\" xmlns:framework=\"f\">\n\
    <framework:nodes>\n\
    <source id=\"source_1\" x=\"0\" y=\"0\"><height unit=\"m\" value=\"0\"/>\n\
    <pressureMin unit=\"bar\" value=\"40\"/><pressureMax unit=\"bar\" value=\"60\"/>\n\
    <flowMin unit=\"1000m_cube_per_hour\" value=\"0\"/><flowMax unit=\"1000m_cube_per_hour\" value=\"1000\"/></source>\n\
    <innode id=\"innode_1\"><pressureMin unit=\"bar\" value=\"30\"/><pressureMax unit=\"bar\" value=\"60\"/></innode>\n\
    <innode id=\"innode_2\"><pressureMin unit=\"bar\" value=\"30\"/><pressureMax unit=\"bar\" value=\"80\"/></innode>\n\
    <sink id=\"sink_1\"><pressureMin unit=\"bar\" value=\"30\"/><pressureMax unit=\"bar\" value=\"80\"/>\n\
    <flowMin unit=\"1000m_cube_per_hour\" value=\"0\"/><flowMax unit=\"1000m_cube_per_hour\" value=\"1000\"/></sink>\n\
    </framework:nodes>\n\
    <framework:connections>\n\
    <pipe id=\"pipe_1\" from=\"source_1\" to=\"innode_1\" alias=\"\">\n\
    <flowMin unit=\"1000m_cube_per_hour\" value=\"-1000\"/><flowMax unit=\"1000m_cube_per_hour\" value=\"1000\"/>\n\
    <length unit=\"km\" value=\"20\"/><diameter unit=\"mm\" value=\"600\"/><roughness unit=\"mm\" value=\"0.05\"/>\n\
    <pressureMax unit=\"bar\" value=\"80\"/></pipe>\n\
    <compressorStation id=\"compressorStation_1\" from=\"innode_1\" to=\"innode_2\">\n\
    <flowMin unit=\"1000m_cube_per_hour\" value=\"0\"/><flowMax unit=\"1000m_cube_per_hour\" value=\"1000\"/>\n\
    <pressureInMin unit=\"bar\" value=\"30\"/><pressureOutMax unit=\"bar\" value=\"80\"/></compressorStation>\n\
    <pipe id=\"pipe_2\" from=\"innode_2\" to=\"sink_1\">\n\
    <flowMin unit=\"1000m_cube_per_hour\" value=\"-1000\"/><flowMax unit=\"1000m_cube_per_hour\" value=\"1000\"/>\n\
    <pressureMax unit=\"bar\" value=\"80\"/></pipe>\n\
    </framework:connections>\n\
    </network>";

// Only all of it is whole.
#[test]
fn no_front_of_a_network_is_whole(rt: HostRuntime) -> Result<(), Fail> {
    let text = NETWORK.as_bytes();
    for len in 0..text.len() {
        let read = read_outline(rt.alloc(), text.split_at(len).0);
        assert!(rt;
            matches!(read, Err(OutlineFault::NotOutline { .. })),
            "{len}"
        );
    }
    assert!(rt; read_outline(rt.alloc(), text).is_ok());
    Ok(())
}
