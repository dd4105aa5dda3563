// What the core keeps of transactions outside the device.
ghost use Rattle.std.specs.Prelude.{◌≡◌, None};

/// A transaction that is open.
#[derive(Clone, Copy, Debug)]
pub(crate) struct Running {
    /// Its number: how many transactions had begun with it.
    pub number: u64,
    /// How many commits it reads: those from 1 to this number.
    pub snapshot: u64,
    /// How many rows it has created.
    pub rows: u32,
}

/// How many transactions have begun, and the one that session 1 has open.
#[derive(Clone, Copy, Debug)]
pub(crate) struct Transactions {
    /// How many transactions have begun since the core was opened.
    pub begun: u64,
    /// The transaction that session 1 has open.
    pub running: Option<Running>,
}

impl Transactions {
    /// No transaction has begun.
    pub fn none() -> Transactions
        ensures { result ≡ record { begun = 0; running = None } }
    {
        Transactions {
            begun: 0,
            running: None,
        }
    }
}
