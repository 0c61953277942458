/// An amount on a conit that a replica lends to a holder, or gives back to an owner.
#[derive(Clone, Copy)]
pub enum Loan {
    /// Out to a holder.
    Out {
        holder: u32,
        conit: u32,
        amount: u64,
    },
    /// Back to an owner.
    Back {
        owner: u32,
        conit: u32,
        amount: u64,
    },
}
