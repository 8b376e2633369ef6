//! The event machine: a world of mappings and of the workers inside them.
ghost use Rattle.std.specs.Prelude.{◌≡◌, ◌↔◌, IsTrue, IfOk, OnOk, OnErr, Some, length};
ghost use Rattle.std.specs.FinMap as map;
ghost use Rattle.ad_events.specs.World.{with_status};

use crate::by_number::ByNumber;
use crate::entered::Entered;
use crate::event::Event;
use crate::inside::Inside;
use crate::mapping::{Mapping, Status};
use ad_base::OutOfMemory;
use std::alloc::Global;
use std::marker::Model;

/// A world: how many workers and modules it has, the module and the status of each mapping, which worker is inside which
/// mapping, and which workers have entered and haven't read.
#[derive(Drop)]
pub struct World {
    workers: u64,
    current: Vec<u64>,
    mappings: ByNumber<Mapping>,
    inside: Inside,
    entered: Entered,
}

impl Model for World {
    ghost use Rattle.std.specs.Prelude.{length};
    ghost use Rattle.ad_events.specs.World.{EventWorld, coded_world, WorldFits};

    ghost Value = { EventWorld };

    ghost coded = { coded_world };

    ghost view = { λ a. record { workers = a.workers; modules = length a.current.items; mappings = a.mappings; inside = a.inside; entered = a.entered } };

    ghost invariant = { λ a. WorldFits a.current.items a.mappings a.inside a.entered };
}

impl World {
    ghost use Rattle.ad_events.specs.World.{AllDiffer, IsLawful, TakesMemory, effect, mapping_of, world_opening, status_of};
    ghost use Rattle.ad_events.specs.declared.event.Event.TheVariants.{Enter, Read, Leave, Map, Switch, Retire, Unmap};

    /// The world of so many workers, and of one module for each number given, whose current mapping has that number. The
    /// numbers differ. Want of memory may come.
    pub fn new(alloc: Global, workers: u64, current: &[u64]) -> Result<World, OutOfMemory>
        requires { AllDiffer current.now }
        ensures { IfOk result (λ world. world ≡ world_opening workers current.now) }
    {
        let mut mappings = ByNumber::new(alloc);
        for (module, &mapping) in current.iter().enumerate() {
            mappings.insert(
                mapping,
                Mapping {
                    module: module as u64,
                    status: Status::Current,
                },
            )?;
        }
        Ok(World {
            workers,
            current: Vec::from_slice(alloc, current)?,
            mappings,
            inside: Inside::new(alloc),
            entered: Entered::new(alloc),
        })
    }

    /// Whether the event may happen.
    pub fn lawful(&self, event: &Event) -> bool
        ensures { IsTrue result ↔ IsLawful self.now event.now }
    {
        match *event {
            Event::Enter { worker } => self.may_enter(worker),
            Event::Read {
                worker,
                module,
                mapping,
            } => self.entered.contains(worker) && self.is_of(mapping, module, Status::Current),
            Event::Leave { worker } => self.inside.get(worker).is_some(),
            Event::Map { module, mapping } => self.may_map(module, mapping),
            Event::Switch { module, mapping } => self.is_of(mapping, module, Status::Fresh),
            Event::Retire { mapping } => self.has_status(mapping, Status::Out),
            Event::Unmap { mapping } => self.may_unmap(mapping),
        }
    }

    /// Makes the event. Want of memory leaves the world as it was, and comes only where a worker enters or reads or a mapping
    /// is mapped.
    pub fn apply(&mut self, event: &Event) -> Result<(), OutOfMemory>
        requires { IsLawful self.old event.now }
        ensures ok { OnOk result (self.new ≡ effect self.old event.now) }
        ensures err { OnErr result (self.new ≡ self.old) }
        ensures memory { OnErr result (TakesMemory event.now) }
    {
        match *event {
            Event::Enter { worker } => self.entered.insert(worker)?,
            Event::Read {
                worker,
                mapping,
                ..
            } => {
                self.inside.put(worker, mapping)?;
                self.entered.remove(worker);
            }
            Event::Leave { worker } => self.inside.remove(worker),
            Event::Map { module, mapping } => self.add_fresh(module, mapping)?,
            Event::Switch { module, mapping } => self.switch(module, mapping),
            Event::Retire { mapping } => self.retire(mapping),
            Event::Unmap { mapping } => self.unmap(mapping),
        }
        Ok(())
    }

    fn may_enter(&self, worker: u64) -> bool
        ensures { IsTrue result ↔ IsLawful self.now (Enter worker) }
    {
        worker < self.workers && !self.entered.contains(worker) && self.inside.get(worker).is_none()
    }

    fn may_map(&self, module: u64, mapping: u64) -> bool
        ensures { IsTrue result ↔ IsLawful self.now (Map «module» mapping) }
    {
        module < self.current.len() as u64 && self.mappings.get(mapping).is_none()
    }

    fn may_unmap(&self, mapping: u64) -> bool
        ensures { IsTrue result ↔ IsLawful self.now (Unmap mapping) }
    {
        self.has_status(mapping, Status::Retired) && self.inside.is_free(mapping)
    }

    fn has_status(&self, mapping: u64, status: Status) -> bool
        ensures { IsTrue result ↔ (status_of self.now mapping ≡ Some status) }
    {
        match self.mappings.get(mapping) {
            Some(found) => found.status == status,
            None => false,
        }
    }

    /// Whether the mapping is one of the module, with the status.
    fn is_of(&self, mapping: u64, module: u64, status: Status) -> bool
        ensures { IsTrue result ↔ (map.get self.now.mappings mapping ≡ Some (mapping_of «module» status)) }
    {
        self.mappings.get(mapping) == Some(Mapping { module, status })
    }

    fn add_fresh(&mut self, module: u64, mapping: u64) -> Result<(), OutOfMemory>
        requires { IsLawful self.old (Map «module» mapping) }
        ensures ok { OnOk result (self.new ≡ effect self.old (Map «module» mapping)) }
        ensures err { OnErr result (self.new ≡ self.old) }
    {
        let status = Status::Fresh;
        self.mappings.insert(mapping, Mapping { module, status })?;
        Ok(())
    }

    /// The fresh mapping becomes the module's current one, and the one before is out.
    fn switch(&mut self, module: u64, mapping: u64)
        requires { IsLawful self.old (Switch «module» mapping) }
        ensures { self.new ≡ effect self.old (Switch «module» mapping) }
    {
        let before = self.current[module as usize];
        self.mappings.set(
            before,
            Mapping {
                module,
                status: Status::Out,
            },
        );
        self.mappings.set(
            mapping,
            Mapping {
                module,
                status: Status::Current,
            },
        );
        self.current[module as usize] = mapping;
    }

    fn retire(&mut self, mapping: u64)
        requires { IsLawful self.old (Retire mapping) }
        ensures { self.new ≡ effect self.old (Retire mapping) }
    {
        put_status(&mut self.mappings, mapping, Status::Retired);
    }

    fn unmap(&mut self, mapping: u64)
        requires { IsLawful self.old (Unmap mapping) }
        ensures { self.new ≡ effect self.old (Unmap mapping) }
    {
        put_status(&mut self.mappings, mapping, Status::Gone);
    }
}

fn put_status(mappings: &mut ByNumber<Mapping>, mapping: u64, status: Status)
    ensures { mappings.new ≡ with_status mappings.old mapping status }
{
    if let Some(found) = mappings.get(mapping) {
        let module = found.module;
        mappings.set(mapping, Mapping { module, status });
    }
}
