//! A rule of loading, as it is told to people.

/// A rule that a program may break.
#[derive(Clone, Copy)]
pub struct Rule {
    /// The name of the kind of refusal.
    pub kind: &'static str,
    /// Where a program breaks the rule.
    pub comes_where: &'static str,
    /// What helps.
    pub to_do: &'static str,
}
