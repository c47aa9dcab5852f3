//! The grammar of a whole schedule, declared apart from the reader, and the law that the reader finds exactly what it says.
//! Definitions and a law, without code.
//!
//! It stands above `lard_schedule`, whose reader takes one line at a time, and `lard_lines`, which cuts a text into them.
#![tactic(auto)]

ghost use Rattle.std.specs.Prelude.{◌≡◌, ◌↔◌, ℕ, List, Some};
ghost use Rattle.lard_base.specs.declared.config.Config.{Config};
ghost use Rattle.lard_base.specs.declared.event.Event.{Event};
ghost use Rattle.lard_grammar.specs.Schedule.{IsSchedule, schedule_of};

/// The reader finds a configuration, files and events in a text exactly where the text is a schedule that stands for them.
/// So a text stands for no others.
pub fn reads_every_schedule()
    ensures found { (text : List ℕ) (config : Config) (files : List (List ℕ × List ℕ)) (events : List Event)
        → (schedule_of text ≡ Some (record { config = config; files = files; events = events })) ↔ IsSchedule text config files events }
    ensures unique { (text : List ℕ) (config also : Config) (files others : List (List ℕ × List ℕ)) (events more : List Event)
        → IsSchedule text config files events → IsSchedule text also others more → (config ≡ also) × (files ≡ others) × (events ≡ more) }
{}
