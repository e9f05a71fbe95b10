// What a rule is handed beside its step: the visits made so far, and the limit that they stand under.
#[derive(Clone, Copy, Debug, PartialEq, Eq)]
pub struct Counter {
    pub visits: u32,
    pub limit: u32,
}
