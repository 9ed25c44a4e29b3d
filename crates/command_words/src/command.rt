//! The commands of a call, and why words are none.

/// What the words of a call ask for.
#[derive(Clone, Copy)]
pub enum Command<'a> {
    /// Tell whether the program keeps the language's rules.
    Check {
        file: &'a str,
    },
    /// Tell the graph of the program's blocks.
    Compile {
        file: &'a str,
    },
    /// Serve the input by the direct interpreter.
    Local {
        file: &'a str,
    },
    /// Serve the input by the dataflow.
    Run {
        file: &'a str,
        settings: RunWords<'a>,
    },
    /// Serve generated work.
    Gen(GenWords),
    /// Print the history of a store, as request lines and reply lines.
    Export {
        file: &'a str,
        store: &'a str,
    },
    /// Judge such lines, of a file, by a serial run of their requests.
    Audit {
        file: &'a str,
        run: &'a str,
    },
}

/// How `run` serves its input.
#[derive(Clone, Copy)]
pub struct RunWords<'a> {
    /// As many pending requests as make a batch due.
    pub batch: u32,
    /// The number of parts into which each class's entities are divided.
    pub partitions: u32,
    /// The number from which the order of steps is drawn.
    pub schedule: u64,
    /// The folder of the store, where there is one.
    pub store: Option<&'a str>,
    /// As many batches as come between two checkpoints.
    pub every: u32,
    /// The greatest number of committed requests.
    pub history: u32,
    /// Whether the requests of a batch may commit in another order than they came.
    pub reorder: bool,
    /// Whether a line about each batch goes to the error stream.
    pub trace: bool,
}

/// Which work `gen` makes, and how it is served.
#[derive(Clone, Copy)]
pub struct GenWords {
    /// The number from which the work is drawn.
    pub number: u64,
    /// The number of requests.
    pub size: u32,
    /// As many pending requests as make a batch due.
    pub batch: u32,
    /// The number of parts into which each class's entities are divided.
    pub partitions: u32,
}

/// Why there is no command.
#[derive(Clone, Copy)]
pub enum WordsError {
    /// The words ask for none.
    Usage,
    /// Memory ran out before the words were read.
    NoMemory,
}
