//! What the commands on loader.conf come to.
ghost use Rattle.loader_commands.specs.Laws.{SettingChangesOneKey, ShowTellsOfTheDefault};

/// Whatever `loader show` tells is of the entry of the menu that the settings choose.
pub fn show_tells_of_the_default()
    ensures { ShowTellsOfTheDefault }
{}

/// The text that a change writes has the value at its key and the old value at the other, and all other lines as they
/// were.
pub fn setting_changes_one_key()
    ensures { SettingChangesOneKey }
{}
