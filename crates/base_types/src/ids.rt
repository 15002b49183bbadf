// Which texts may be ids.
ghost use Rattle.std.specs.Prelude.{◌≡◌};
ghost use Rattle.std.specs.List.{list_all};
ghost use Rattle.base_types.specs.Ids.{is_id, has_id_form, is_id_byte};

fn are_id_bytes(bytes: &[u8]) -> bool
    ensures { result ≡ list_all is_id_byte bytes.now }
{
    bytes.iter().all(|b| 0x21 <= *b && *b != 0x7F)
}

fn has_id_form(text: &str) -> bool
    ensures { result ≡ has_id_form text.now }
{
    !text.is_empty() && text.len() <= 200 && are_id_bytes(text.as_bytes())
}

/// Whether a text may be an id: it has 1 to 200 bytes, none below 0x21 and none 0x7F.
pub fn is_id(text: &str) -> bool
    ensures { result ≡ is_id text.now }
{
    has_id_form(text)
}
