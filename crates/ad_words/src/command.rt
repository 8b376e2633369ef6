//! What a command does, and with which numbers.

/// The seed of the choice of places, where the words say none.
pub const SEED: u64 = 0;

/// Steps that a call may make at most, where the words say none.
pub const FUEL: u64 = 100_000;

/// The most steps that the words may let a call make.
pub const MOST_FUEL: u64 = 100_000_000;

/// The slots that workers enter modules on, where the words say none.
pub const SLOTS: u64 = 4;

/// The most slots that the words may say.
pub const MOST_SLOTS: u64 = 16;

/// The table frames of each module, where the words say none: each mapping of its movable part that exists has one of
/// its own.
pub const FRAMES: u64 = 8;

/// The fewest table frames of each module that the words may say: one for the current mapping and one for the next.
pub const LEAST_FRAMES: u64 = 2;

/// The most table frames of each module that the words may say.
pub const MOST_FRAMES: u64 = 16;

/// The most lines that a script is generated of.
pub const MOST_GENERATED: u64 = 19_000;

/// A command.
#[derive(Clone, Copy, Debug, PartialEq, Eq)]
pub enum Command<'a> {
    /// Runs the calls of each worker of a script beside those of the others and beside its moves.
    Run {
        /// The name of the script's file.
        script: &'a str,
        /// The seed of the choice of places.
        seed: u64,
        /// Steps that a call may make at most.
        fuel: u64,
        /// The slots that workers enter modules on: worker w enters on slot w modulo their number, and each slot counts
        /// the calls that entered on it and haven't left.
        slots: u64,
        /// The table frames of each module: so many mappings of its movable part may exist at the same time, each of
        /// which has a frame of its own for its local area. A move of a module without a free frame is busy.
        frames: u64,
    },
    /// Runs the lines of a script, one after another.
    Seq {
        /// The name of the script's file.
        script: &'a str,
        /// The seed of the choice of places.
        seed: u64,
        /// Steps that a call may make at most.
        fuel: u64,
    },
    /// Says of each call of a script what comes of it, wherever the movable parts and the stacks lie.
    Predict {
        /// The name of the script's file.
        script: &'a str,
        /// The seed of the choice of places: of those of the immovable parts.
        seed: u64,
        /// Steps that a call may make at most.
        fuel: u64,
    },
    /// Shows what the image of a module's file has.
    Show {
        /// The name of the module's file.
        file: &'a str,
    },
    /// Runs the lines of a script that is generated, over the modules that are built.
    Gen {
        /// How many lines call and move the modules.
        number: u64,
        /// The seed of the choice of places.
        seed: u64,
        /// Steps that a call may make at most.
        fuel: u64,
    },
}
