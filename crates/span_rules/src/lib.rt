// The rules on spans: between which indexes of a dial its energy lies, which anomaly keeps it from a party, by which
// weights it is shared; and what follows from them for every dial (specs/). No storage and no search: those are the
// crates above. docs/spans.md has the rules.
#![tactic(auto)]

ghost use Rattle.span_rules.specs.Laws.{Covering, OneJudgement, HalfHoursInSpans, AddsUp, SpansFair};

// The situation of a day is the one that covers it.
pub fn situations_cover_their_days()
    ensures { Covering }
{}

// Every span has one first anomaly or none.
pub fn spans_have_one_judgement()
    ensures { OneJudgement }
{}

// Of the half-hours of a dial exactly those from its first to its last index lie in a span, and each in one only.
pub fn half_hours_lie_in_one_span()
    ensures { HalfHoursInSpans }
{}

// The energies of a dial's spans, and the figures of its curve, add to its last index less its first.
pub fn spans_add_to_last_less_first()
    ensures { AddsUp }
{}

// The figures of every span follow the exact share and add to its energy.
pub fn spans_are_shared_fairly()
    ensures { SpansFair }
{}
