//! What holds of every generated schedule, and what some of them are.

ghost use Rattle.std.specs.Prelude.{◌≡◌, [], ◌∷◌, length};
ghost use Rattle.lard_generate.specs.Clients.{request_head};
ghost use Rattle.lard_generate.specs.Draws.{each, seeded};
ghost use Rattle.lard_generate.specs.Files.{generated_content, drawn_size};
ghost use Rattle.lard_generate.specs.Generated.{generated};
ghost use Rattle.lard_generate.specs.Laws.{AnswersAreCounted, EventsAreSpelled, FilesAreSpelled};
ghost use Rattle.lard_generate.specs.Worked.{losing, repeated, shutting};

/// The lines of a schedule can spell a generated one: each event and each file has what the grammar asks, the rounds among
/// them, which are below 2^32.
pub fn generated_schedules_are_spelled()
    ensures events { EventsAreSpelled }
    ensures files { FilesAreSpelled }
{}

/// The rounds are counted of the responses that the requests are answered by: each asks for a file that there is.
pub fn answers_are_counted()
    ensures { AnswersAreCounted }
{}

/// The definition gives what was worked out apart.
pub fn schedules_are_as_worked_out()
    ensures sizes { (each drawn_size 3 (seeded 7)).0 ≡ 6603 ∷ 6111 ∷ 5153 ∷ [] }
    ensures content { generated_content 254 4 ≡ 254 ∷ 255 ∷ 0 ∷ 1 ∷ [] }
    ensures head { length (request_head 0) ≡ 483 }
    ensures shutting { (generated 7 1).events ≡ shutting }
    ensures repeated { (generated 2 1).events ≡ repeated }
    ensures losing { (generated 5 1).events ≡ losing }
{}
