//! The laws of worlds, over every list of lawful events from an opening.
ghost use Rattle.ad_events.specs.WorldLaws.{AfterAllEvents, AllLawful, AtEveryOpening, EachGoesOn, EnteredIsApart, GoneOnce, InsideIsHeld, NeverBack, NoneGoneInside, NotGoneNever, OneCurrent, worked_row};
ghost use Rattle.ad_events.specs.World.{world_opening};
ghost use Rattle.std.specs.Prelude.{[], ◌∷◌};

/// The world at the opening has each mapping given, current in its module, and no other; nobody has entered or is inside.
pub fn law_opening_has_the_given()
    ensures given { AtEveryOpening }
{}

/// Each module has exactly one current mapping.
pub fn law_one_current()
    ensures current { AfterAllEvents OneCurrent }
{}

/// A mapping is fresh, current, out, retired and gone, in this order and never back, and stays one of its module.
pub fn law_statuses_go_on()
    ensures each { AfterAllEvents EachGoesOn }
    ensures never_back { AfterAllEvents NeverBack }
{}

/// A mapping that a worker is inside is current, out or retired, so it isn't gone.
pub fn law_none_gone_inside()
    ensures held { AfterAllEvents InsideIsHeld }
    ensures none { AfterAllEvents NoneGoneInside }
{}

/// A worker that has entered and hasn't read is inside no mapping.
pub fn law_entered_is_apart()
    ensures apart { AfterAllEvents EnteredIsApart }
{}

/// A mapping becomes gone by exactly one event, an unmap of it.
pub fn law_gone_once()
    ensures once { GoneOnce }
    ensures never { NotGoneNever }
{}

/// The events of a world of one worker and one module, from its first mapping to the unmap of it, are lawful in turn.
pub fn law_worked_row_is_lawful()
    ensures lawful { AllLawful (world_opening 1 (1 ∷ [])) worked_row }
{}
