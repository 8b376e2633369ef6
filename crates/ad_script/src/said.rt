//! What the lines of a script say together.

ghost use Rattle.std.specs.Prelude.{◌≡◌, ◌≤◌, bytes_eq, IfOk, ◌++◌, ◌∷◌, [], Some, MatchOption, option_map, length, map, Ok, true, false};
ghost use Rattle.std.specs.List.{list_all, list_any};
ghost use Rattle.ad_script.specs.Forms.{Calls, Loads, Moves, Stacks, Workers, is_module_name};
ghost use Rattle.ad_script.specs.Private.Seen.{Comes, form_seen, said_seen, texts};
ghost use Rattle.ad_script.specs.declared.script.TheConstants.{SCRIPT_LINES};
ghost use Rattle.ad_script.specs.Script.{after_form, after_line, has_repeats, is_loaded, module_number, nothing_said, number_of_module, script_said, with_step, workers_of};

use crate::forms::{Form, form_of};
use crate::names::{is_file_name, is_module_name, target_of};
use crate::numbers::{arguments_of, number_of};
use crate::refusal::{Cause, LineFault};
use crate::script::{ARGUMENTS, Load, Members, SCRIPT_LINES, Script, Step};
use crate::text::{is_text, without_return, words_of};
use ad_base::{MODULES, Name, Sequence, WORKERS};
use std::alloc::Global;

/// What the lines so far say.
#[derive(Drop)]
pub struct Reading {
    workers: Option<u64>,
    loads: Vec<Load>,
    steps: Vec<Step>,
}

impl Reading {
    /// No line says anything.
    pub fn nothing(alloc: Global) -> Reading
        ensures { said_seen result ≡ nothing_said }
    {
        Reading {
            workers: None,
            loads: Vec::new(alloc),
            steps: Vec::new(alloc),
        }
    }

    /// The script of what was said.
    pub fn into_script(self) -> Script
        ensures { result ≡ script_said (said_seen self) }
    {
        Script {
            workers: self.workers(),
            loads: Sequence::of(self.loads),
            steps: Sequence::of(self.steps),
        }
    }

    /// Reads the line of this number.
    #[tactic(auto, unfolding(crate::specs::Script::after_line, crate::specs::Script::text_cause))]
    pub fn read_line(&mut self, alloc: Global, number: u64, line: &[u8]) -> Result<(), LineFault>
        ensures line { Comes (λ _ said. said ≡ said_seen self.new) result (after_line (said_seen self.old) number line.now) }
        ensures few { IfOk result (λ _. number ≤ SCRIPT_LINES) }
    {
        let text = without_return(line);
        if !is_text(text) {
            return Err(LineFault::Refused(Cause::NotText));
        }
        if number > SCRIPT_LINES {
            return Err(LineFault::Refused(Cause::TooMany));
        }
        let words = words_of(alloc, text)?;
        match form_of(words.as_slice()) {
            Some(form) => self.read_form(alloc, number, form),
            None => Err(LineFault::Refused(Cause::Word)),
        }
    }

    /// Reads what is to be done by the line of this number.
    #[tactic(auto, unfolding(crate::specs::Script::form_cause, crate::specs::Script::with_form))]
    fn read_form(&mut self, alloc: Global, number: u64, form: Form<'_>) -> Result<(), LineFault>
        ensures { Comes (λ _ said. said ≡ said_seen self.new) result (after_form (said_seen self.old) number (form_seen form.entry)) }
    {
        match form {
            Form::Blank => Ok(()),
            Form::Workers { count } => {
                self.workers = Some(self.count_of(number, count)?);
                Ok(())
            }
            Form::Load { name, file } => {
                let load = self.load_of(alloc, number, name, file)?;
                self.loads.push(load)?;
                Ok(())
            }
            Form::Call {
                worker,
                target,
                args,
            } => {
                let step = self.call_of(alloc, number, worker, target, args)?;
                self.steps.push(step)?;
                Ok(())
            }
            Form::Move { names } => {
                let step = self.move_of(number, names)?;
                self.steps.push(step)?;
                Ok(())
            }
            Form::Stack { worker } => {
                let step = self.stack_of(number, worker)?;
                self.steps.push(step)?;
                Ok(())
            }
        }
    }

    /// How many workers a line says that there are.
    #[tactic(auto, unfolding(crate::specs::Script::form_cause, crate::specs::Script::with_form))]
    fn count_of(&self, number: u64, count: &[u8]) -> Result<u64, LineFault>
        ensures { Comes (λ n said. said ≡ record (said_seen self.now) { workers = Some n }) result (after_form (said_seen self.now) number (Workers count.now)) }
    {
        if !self.steps.is_empty() {
            return Err(LineFault::Refused(Cause::LateLoad));
        }
        let workers = number_of(count).ok_or(LineFault::Refused(Cause::Number))?;
        if workers < 1 || workers > WORKERS {
            return Err(LineFault::Refused(Cause::Number));
        }
        if self.workers.is_some() {
            return Err(LineFault::Refused(Cause::Duplicate));
        }
        Ok(workers)
    }

    /// The module that a line loads.
    #[tactic(auto, unfolding(crate::specs::Script::form_cause, crate::specs::Script::with_form))]
    fn load_of(
        &self,
        alloc: Global,
        number: u64,
        name: &[u8],
        file: &[u8],
    ) -> Result<Load, LineFault>
        ensures { Comes (λ l said. said ≡ record (said_seen self.now) { loads = self.now.loads.items ++ l ∷ [] }) result (after_form (said_seen self.now) number (Loads name.now file.now)) }
    {
        if !is_module_name(name) || !is_file_name(file) {
            return Err(LineFault::Refused(Cause::Word));
        }
        if !self.steps.is_empty() {
            return Err(LineFault::Refused(Cause::LateLoad));
        }
        if self.module_number(name).is_some() {
            return Err(LineFault::Refused(Cause::Duplicate));
        }
        if self.loads.len() as u64 >= MODULES {
            return Err(LineFault::Refused(Cause::TooMany));
        }
        Ok(Load {
            line: number,
            name: Name::of(alloc, name)?,
            file: Name::of(alloc, file)?,
        })
    }

    /// The call that a line makes.
    #[tactic(auto, unfolding(crate::specs::Script::form_cause, crate::specs::Script::with_form))]
    fn call_of(
        &self,
        alloc: Global,
        number: u64,
        worker: &[u8],
        target: &[u8],
        args: &[&[u8]],
    ) -> Result<Step, LineFault>
        ensures { Comes (λ step said. said ≡ with_step (said_seen self.now) step) result (after_form (said_seen self.now) number (Calls worker.now target.now (texts args.now))) }
    {
        if args.len() as u64 > ARGUMENTS {
            return Err(LineFault::Refused(Cause::Args));
        }
        let caller = number_of(worker).ok_or(LineFault::Refused(Cause::Number))?;
        let args = arguments_of(args).ok_or(LineFault::Refused(Cause::Number))?;
        if caller >= self.workers() {
            return Err(LineFault::Refused(Cause::Worker));
        }
        let target = target_of(target).ok_or(LineFault::Refused(Cause::Export))?;
        let module = self
            .module_number(target.module)
            .ok_or(LineFault::Refused(Cause::Module))?;
        Ok(Step::Call {
            line: number,
            worker: caller,
            module: module as u64,
            export: Name::of(alloc, target.export)?,
            args,
        })
    }

    /// The move that a line makes.
    #[tactic(auto, unfolding(crate::specs::Script::form_cause, crate::specs::Script::with_form))]
    fn move_of(&self, number: u64, names: &[&[u8]]) -> Result<Step, LineFault>
        ensures { Comes (λ step said. said ≡ with_step (said_seen self.now) step) result (after_form (said_seen self.now) number (Moves (texts names.now))) }
    {
        if !are_module_names(names) {
            return Err(LineFault::Refused(Cause::Word));
        }
        if names.len() as u64 > MODULES {
            return Err(LineFault::Refused(Cause::Args));
        }
        let modules = self
            .members_of(names)
            .ok_or(LineFault::Refused(Cause::Module))?;
        if has_repeats(names) {
            return Err(LineFault::Refused(Cause::Duplicate));
        }
        Ok(Step::Move {
            line: number,
            modules,
        })
    }

    /// The fresh stack that a line makes.
    #[tactic(auto, unfolding(crate::specs::Script::form_cause, crate::specs::Script::with_form))]
    fn stack_of(&self, number: u64, worker: &[u8]) -> Result<Step, LineFault>
        ensures { Comes (λ step said. said ≡ with_step (said_seen self.now) step) result (after_form (said_seen self.now) number (Stacks worker.now)) }
    {
        let worker = number_of(worker).ok_or(LineFault::Refused(Cause::Number))?;
        if worker >= self.workers() {
            return Err(LineFault::Refused(Cause::Worker));
        }
        Ok(Step::Stack {
            line: number,
            worker,
        })
    }

    /// How many workers there are: one where no line says it.
    fn workers(&self) -> u64
        ensures { result ≡ workers_of (said_seen self.now) }
    {
        self.workers.unwrap_or(1)
    }

    /// The number of the module of this name.
    #[tactic(auto, unfolding(crate::specs::Script::module_number))]
    fn module_number(&self, name: &[u8]) -> Option<usize>
        ensures { result ≡ module_number self.now.loads.items name.now }
    {
        self.loads.iter().position(|load| load.name.bytes() == name)
    }

    /// The numbers of the modules of so many names, or `None` where one wasn't loaded.
    fn members_of(&self, names: &[&[u8]]) -> Option<Members>
        requires { length names.now ≤ MODULES }
        ensures { MatchOption result (list_all (is_loaded (said_seen self.now)) (texts names.now) ≡ false)
            (λ members. (list_all (is_loaded (said_seen self.now)) (texts names.now) ≡ true)
            × (members ≡ map (number_of_module (said_seen self.now)) (texts names.now))) }
    {
        let mut members = Members::new();
        for name in names {
            members.push(self.module_number(name)? as u64);
        }
        Some(members)
    }
}

/// Tests for names of modules alone.
fn are_module_names(names: &[&[u8]]) -> bool
    ensures { result ≡ list_all is_module_name (texts names.now) }
{
    names.iter().all(|name| is_module_name(name))
}

/// Tests whether a name stands again behind where it stands first.
fn has_repeats(names: &[&[u8]]) -> bool
    ensures { result ≡ has_repeats (texts names.now) }
{
    let mut rest = names;
    while let [name, later @ ..] = rest {
        if is_among(name, later) {
            return true;
        }
        rest = later;
    }
    false
}

/// Tests whether a name is one of these.
fn is_among(name: &[u8], names: &[&[u8]]) -> bool
    ensures { result ≡ list_any (bytes_eq name.now) (texts names.now) }
{
    names.iter().any(|other| *other == name)
}
