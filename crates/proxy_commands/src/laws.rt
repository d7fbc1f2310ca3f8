//! Laws of scripts and their answers: each is the contract of a function that does nothing.

ghost use Rattle.std.specs.Prelude.{◌≡◌, ℕ, ◌<◌, ◌^◌, ◌↔◌, Bool, Option, List, [], All, map, reverse, IfSome, IsSome};
ghost use Rattle.trace_core.specs.declared.history.Plan.{Plan};
ghost use Rattle.trace_core.specs.declared.history.Event.{Event};
ghost use Rattle.trace_core.specs.declared.history.Answer.{Answer};
ghost use Rattle.trace_core.specs.declared.history.Kind.{Kind};
ghost use Rattle.trace_core.specs.History.{seen};
ghost use Rattle.trace_core.specs.Legal.{IsLegal};
ghost use Rattle.trace_core.specs.Run.{IsAnswer, AreAnswers};
ghost use Rattle.trace_core.specs.Norm.{IsNormal};
ghost use Rattle.trace_core.specs.declared.tape.Tape.{Tape};
ghost use Rattle.need_witness.specs.Script.{IsScript};
ghost use Rattle.trace_core.specs.Held.{IsNeeded};
ghost use Rattle.exchange_report.specs.declared.caption.Caption.{Caption};
ghost use Rattle.proxy_commands.specs.declared.script.Line.{Line};
ghost use Rattle.proxy_commands.specs.declared.script.Line.TheVariants.{Step};
ghost use Rattle.proxy_commands.specs.Lines.{lines_of, said};
ghost use Rattle.proxy_commands.specs.Reading.{decimal_of, parts_of, line_of};
ghost use Rattle.proxy_commands.specs.Words.{IsNumber, SaysLine, line_number, line_text};
ghost use Rattle.proxy_commands.specs.Script.{SaysParts, SaysAll, IsFirstBad};
ghost use Rattle.proxy_commands.specs.Answers.{answers_text, answer_of, accepted_with, needed_script, output_of, IsOutput};
ghost use Rattle.proxy_commands.specs.Chunks.{IsChunksOutput};
ghost use Rattle.proxy_commands.specs.Printed.{sent_script, said_plan, printed_lines, Runs, AnswersAlike};

/// A text is one script at most, and no line of a script is of another form; the number of the
/// first line of another form is one number.
pub fn one_text_one_script()
    ensures lines { (text : List ℕ) (p q : Plan) (a b : List Line)
        → SaysAll (said (lines_of text)) p a → SaysAll (said (lines_of text)) q b → (p ≡ q) × (a ≡ b) }
    ensures good_or_bad { (text : List ℕ) (plan : Plan) (lines : List Line) (n : ℕ)
        → SaysAll (said (lines_of text)) plan lines → IsFirstBad (lines_of text) n → ⊥ }
    ensures first { (text : List ℕ) (m n : ℕ)
        → IsFirstBad (lines_of text) m → IsFirstBad (lines_of text) n → m ≡ n }
{}

/// A text has one output at most, as a script and as a chunked body.
pub fn one_text_one_output()
    ensures script { (text a b : List ℕ) → IsOutput text a → IsOutput text b → a ≡ b }
    ensures chunks { (text a b : List ℕ) → IsChunksOutput text a → IsChunksOutput text b → a ≡ b }
{}

/// An event or a question that is printed is read again.
pub fn reads_what_it_prints()
    ensures { (line : Line) → IfSome (line_number line) (λ n. n < 2 ^ 64) → SaysLine (line_text line) line }
{}

/// What is read from a line by cases is what the forms of a script say, for a number, a plan's line
/// and each line after it.
pub fn reads_the_forms()
    ensures number { (digits : List ℕ) (n : ℕ) → (decimal_of digits ≡ Some n) ↔ IsNumber digits n }
    ensures plan { (text : List ℕ) (kind : Kind) (allow : Bool × Bool) (len : Option ℕ)
        → (parts_of text ≡ Some (kind, allow, len)) ↔ SaysParts text kind allow len }
    ensures line { (text : List ℕ) (line : Line) → (line_of text ≡ Some line) ↔ SaysLine text line }
{}

/// Each answer to an event is that of the adaptation state machine, after the events that were
/// accepted before it, which are a legal history. A question is answered by a script that may
/// follow and sends the place, exactly where some continuation sends it.
pub fn answers_are_those_of_the_machine()
    ensures answer { (plan : Plan) (before : List Event) (event : Event) → IsLegal plan before
        → IsAnswer plan before event (answer_of plan before event) }
    ensures legal { (plan : Plan) (before : List Event) (event : Event) → IsLegal plan before
        → IsLegal plan (accepted_with plan before event) }
    ensures script { (plan : Plan) (before : List Event) (tape : Tape) (place : ℕ) → IsLegal plan before
        → IfSome (needed_script tape (seen plan before) place) (IsScript tape place plan before) }
    ensures needed { (plan : Plan) (before : List Event) (tape : Tape) (place : ℕ) → IsLegal plan before
        → (IsSome (needed_script tape (seen plan before) place) ↔ IsNeeded tape plan before place) }
{}

/// For a script of events alone, what is printed is the answers that the machine gives to the whole
/// list of events.
pub fn prints_the_answers_of_a_run()
    ensures { (plan : Plan) (events : List Event)
        → (answers : List Answer) × AreAnswers plan [] events answers
        × (output_of plan (map Step events) ≡ answers_text answers) }
{}

/// The script that is sent of a history is read again: it says its plan, the vectoring point aside, its events, the oldest first, and
/// the questions after them. From the beginning each of these events may follow, and what is kept after the last one is that history. It
/// then shows what that one showed, but for the vectoring point: it holds what was held, and refuses what would have been refused. The
/// history is one that a transaction keeps: it is legal, and in short form.
pub fn a_printed_history_runs_again()
    ensures read { (caption : Caption) (plan : Plan) (events : List Event) → All (λ b. b < 2 ^ 8) caption.method.now
        → All (λ b. b < 2 ^ 8) caption.target.now → IsLegal plan events
        → SaysAll (said (lines_of (sent_script caption plan events))) (said_plan plan) (printed_lines plan events) }
    ensures runs { (plan : Plan) (events : List Event) → IsLegal plan events → IsNormal events
        → Runs (said_plan plan) [] (reverse events) events }
    ensures same { (plan : Plan) (events : List Event) → seen (said_plan plan) events ≡ record (seen plan events) { plan = said_plan plan } }
    ensures alike { (plan : Plan) (events : List Event) → AnswersAlike (seen (said_plan plan) events) (seen plan events) }
{}
