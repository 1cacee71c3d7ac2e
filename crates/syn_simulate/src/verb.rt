//! The first word of a line.
ghost use Rattle.std.specs.Prelude.{◌≡◌, ◌≢◌, IfSome, IfNone};
ghost use Rattle.syn_simulate.specs.inner.Rows.{verb_word};
ghost use Rattle.syn_simulate.specs.declared.verb.Verb.{Verb as Word};

/// What a step does.
#[derive(Clone, Copy, Debug, PartialEq, Eq)]
pub(crate) enum Verb {
    Edit,
    Start,
    Tick,
    Deliver,
    Drain,
    Checkpoint,
    Fail,
    Stop,
    Open,
    Reopen,
}

/// What the word says to do.
pub(crate) fn read_verb(word: &str) -> Option<Verb>
    ensures some { IfSome result (λ verb. word.now ≡ verb_word verb) }
    ensures none { IfNone result ((verb : Word) → word.now ≢ verb_word verb) }
{
    match word {
        "edit" => Some(Verb::Edit),
        "start" => Some(Verb::Start),
        "tick" => Some(Verb::Tick),
        "deliver" => Some(Verb::Deliver),
        "drain" => Some(Verb::Drain),
        "checkpoint" => Some(Verb::Checkpoint),
        "fail" => Some(Verb::Fail),
        "stop" => Some(Verb::Stop),
        "open" => Some(Verb::Open),
        "reopen" => Some(Verb::Reopen),
        _ => None,
    }
}
