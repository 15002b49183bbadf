// What reading and writing have to do with each other, on functions that do nothing.
ghost use Rattle.setting_text.specs.Laws.{IsReadWhereItStands, IsReadBack};

/// Bytes are read as a setting exactly where they stand for it: where they are UTF-8 that `serde_json` reads as the
/// setting's data, and the setting fits the problem, with states of the arcs' kinds.
pub fn read_where_it_stands()
    ensures { IsReadWhereItStands }
{}

/// The text of a setting that fits the problem, with states of the arcs' kinds, is read as this setting.
pub fn text_is_read_back()
    ensures { IsReadBack }
{}
