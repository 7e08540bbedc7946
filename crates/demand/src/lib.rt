// The answers of calls that are made one after the other: for the laws of section 8.1, whose statement is `specs/Demand`, by the crate `demonstrate`;
// for partition in two steps, `specs/Split`, by the crate `split`; for tidying twice, `specs/Tidying`, by the crate `tidy_twice`; for partition at two
// factors, `specs/Factor`, by the crate `two_factors`; and for a deposit into a volume, `specs/Volumes`, by the crate `deposit`.
//
// A struct for each, and not one of two answers, as the statements name each answer by its call.
#![tactic(auto)]

use format::Answer;

// What the four calls answered: partition, rebuild of what it wrote, partition of what it wrote, and pass.
#[derive(Clone, Copy, Debug, PartialEq, Eq)]
pub struct Answers {
    pub first: Answer,
    pub rebuilt: Answer,
    pub again: Answer,
    pub passed: Answer,
}

// What partition in two steps answered: the estimate, and the commitment of its choice.
#[derive(Clone, Copy, Debug, PartialEq, Eq)]
pub struct TwoAnswers {
    pub estimated: Answer,
    pub committed: Answer,
}

// What tidy answered, and what it answered when it was handed the list that it had written.
#[derive(Clone, Copy, Debug, PartialEq, Eq)]
pub struct TwiceTidied {
    pub once: Answer,
    pub again: Answer,
}

// What partition answered at a factor, and at another.
#[derive(Clone, Copy, Debug, PartialEq, Eq)]
pub struct AtTwoFactors {
    pub first: Answer,
    pub second: Answer,
}

// What rebuild_volume answered, and partition against what it wrote.
#[derive(Clone, Copy, Debug, PartialEq, Eq)]
pub struct Deposited {
    pub rebuilt: Answer,
    pub deposited: Answer,
}
