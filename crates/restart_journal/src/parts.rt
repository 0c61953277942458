use run_model::Message;
use run_record::ShortAct;

/// What a piece tells of an act.
#[derive(Debug, Drop)]
pub(crate) enum Told {
    /// The replica took this message.
    Take { message: Message },
    /// Any other act, as a record has it: of a sent message its receiver, its number and its firsts.
    Step(ShortAct),
}

/// What a piece tells of an entry.
#[derive(Debug, Drop)]
pub(crate) struct Piece {
    /// The replica that made it.
    pub replica: u32,
    /// When.
    pub moment: u64,
    /// What it did.
    pub told: Told,
}
