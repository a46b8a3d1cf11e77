/// What the program does.
#[derive(Clone, Copy, Debug, PartialEq, Eq)]
pub enum Mode {
    /// Runs a script.
    Script,
    /// Dumps a weapon.
    Weapon,
    /// Dumps a monster.
    Monster,
}
