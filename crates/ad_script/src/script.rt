//! What a script says.

use ad_base::{Args, Name, Sequence, Words};

/// The most lines that a script may have, those that say nothing included.
pub const SCRIPT_LINES: u64 = 20_000;

/// The most arguments that a call may have.
pub const ARGUMENTS: u64 = 8;

/// What a script says.
#[derive(Debug, Drop)]
pub struct Script {
    /// How many workers there are. They are numbered from 0.
    pub workers: u64,
    /// The modules, in order. They are numbered from 0.
    pub loads: Sequence<Load>,
    /// The lines that call exports, move modules and change stacks, in order.
    pub steps: Sequence<Step>,
}

/// A line that loads a module. Lines are counted from 1.
#[derive(Debug, Drop)]
pub struct Load {
    /// The number of the line.
    pub line: u64,
    /// The name of the module.
    pub name: Name,
    /// The name of the module's file.
    pub file: Name,
}

/// The numbers of the modules that a line moves: at most as many as a script may load.
pub type Members = Words<8>;

/// A line behind those that load modules. Lines are counted from 1.
#[derive(Debug, Drop)]
pub enum Step {
    /// An export of a module is called.
    Call {
        /// The number of the line.
        line: u64,
        /// The number of the worker that calls.
        worker: u64,
        /// The number of the module.
        module: u64,
        /// The name of the export.
        export: Name,
        /// The arguments of the call.
        args: Args,
    },
    /// Modules are moved.
    Move {
        /// The number of the line.
        line: u64,
        /// The numbers of the modules, in the order in which they are moved.
        modules: Members,
    },
    /// A worker gets a fresh stack.
    Stack {
        /// The number of the line.
        line: u64,
        /// The number of the worker.
        worker: u64,
    },
}

impl Step {
    ghost use Rattle.std.specs.Prelude.{◌≡◌};
    ghost use Rattle.ad_script.specs.Script.{line_of};

    /// The number of the line, counted from 1.
    pub fn line(&self) -> u64
        ensures { result ≡ line_of self.now }
    {
        match self {
            Step::Call { line, .. } | Step::Move { line, .. } | Step::Stack { line, .. } => *line,
        }
    }
}
