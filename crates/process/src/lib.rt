// The process record of document 01, by value: its fifteen fields, what changes them, and what a step answers.
#![tactic(auto)]

ghost use Rattle.std.specs.Prelude.{◌≡◌};
ghost use Rattle.process.specs.Process.{idle, started_as, restarted_of, with_point, with_p_seen, with_l, with_index, with_mask, with_other, with_depth, with_own, descended_of, to_three, to_twelve, to_six, to_nine, to_ten, to_eleven, is_clean_of};
ghost use Rattle.process.specs.Answer.{answer_number, steps_up, going_on, ending_of};

use nodes::pending::Pending;

#[derive(Clone, Copy, Debug, PartialEq, Eq)]
pub struct Process {
    pub operation: u32,
    pub key: u32,
    pub point: u32,
    pub gp: u32,
    pub p: u32,
    pub l: u32,
    pub pseen: Pending,
    pub gseen: Pending,
    pub index: u32,
    pub mask: u32,
    pub helped: u32,
    pub other: u32,
    pub depth: u32,
    pub own: u32,
    pub steps: u32,
}

// The record's field and a start's argument are numbers, since either may hold one that is none of these.
pub const FIND: u32 = 1;

pub const INSERT: u32 = 2;

pub const DELETE: u32 = 3;

// "Answers: 0 no, 1 yes, 2 full."
#[derive(Clone, Copy, Debug, PartialEq, Eq)]
pub enum Answer {
    No,
    Yes,
    Full,
}

// "Short of one, a step says that it goes on"; an answer "reports the steps".
#[derive(Clone, Copy, Debug, PartialEq, Eq)]
pub enum Progress {
    GoesOn,
    Ended(Answer, u32),
}

// What an accepted step by value hands back: what it says, and the process record then.
#[derive(Clone, Copy, Debug, PartialEq, Eq)]
pub struct Stepped {
    pub progress: Progress,
    pub process: Process,
}

impl Answer {
    pub fn number(self) -> u32
        ensures { result ≡ answer_number self }
    {
        self as u32
    }
}

impl Process {
    // "An idle record is all zero and clean."
    pub fn idle() -> Process
        ensures { result ≡ idle }
    {
        Process {
            operation: 0,
            key: 0,
            point: 0,
            gp: 0,
            p: 0,
            l: 0,
            pseen: Pending::Clean(0),
            gseen: Pending::Clean(0),
            index: 0,
            mask: 0,
            helped: 0,
            other: 0,
            depth: 0,
            own: 0,
            steps: 0,
        }
    }

    // "A start sets operation, key, point 1 and p = 1 and clears the rest."
    pub fn started_as(operation: u32, key: u32) -> Process
        ensures { result ≡ started_as operation key }
    {
        Process {
            operation,
            key,
            point: 1,
            p: 1,
            ..Process::idle()
        }
    }

    // "A restart is a start that keeps the steps."
    pub fn restarted(self) -> Process
        ensures { result ≡ restarted_of self }
    {
        Process {
            steps: self.steps,
            ..Process::started_as(self.operation, self.key)
        }
    }

    // One field each, under its name: a function over fields Rust does not have, and an update at each caller says no more.
    pub fn with_point(self, point: u32) -> Process
        ensures { result ≡ with_point self point }
    {
        Process { point, ..self }
    }

    pub fn with_pseen(self, pseen: Pending) -> Process
        ensures { result ≡ with_p_seen self pseen }
    {
        Process { pseen, ..self }
    }

    // "gp takes p, p takes the child, the pending value moves along".
    pub fn descended(self, child: u32) -> Process
        ensures { result ≡ descended_of self child }
    {
        Process {
            gp: self.p,
            p: child,
            gseen: self.pseen,
            ..self
        }
    }

    pub fn with_l(self, l: u32) -> Process
        ensures { result ≡ with_l self l }
    {
        Process { l, ..self }
    }

    pub fn with_index(self, index: u32) -> Process
        ensures { result ≡ with_index self index }
    {
        Process { index, ..self }
    }

    pub fn with_mask(self, mask: u32) -> Process
        ensures { result ≡ with_mask self mask }
    {
        Process { mask, ..self }
    }

    pub fn with_other(self, other: u32) -> Process
        ensures { result ≡ with_other self other }
    {
        Process { other, ..self }
    }

    pub fn with_depth(self, depth: u32) -> Process
        ensures { result ≡ with_depth self depth }
    {
        Process { depth, ..self }
    }

    // "The own record is set by success at 4 or 5."
    pub fn with_own(self, own: u32) -> Process
        ensures { result ≡ with_own self own }
    {
        Process { own, ..self }
    }

    // "Going to 3 .. sets the child index to 1; going to 3 also clears the mask".
    pub fn to_three(self) -> Process
        ensures { result ≡ to_three self }
    {
        Process {
            point: 3,
            index: 1,
            mask: 0,
            ..self
        }
    }

    // Going to 12 sets the child index to 1.
    pub fn to_twelve(self) -> Process
        ensures { result ≡ to_twelve self }
    {
        self.with_point(12).with_index(1)
    }

    // One each under its name, as document 01 tells them apart by what is set beside the point.
    // "Helping a replace goes to 6, a prune to 9, a mark to 11 with its record"; the record being helped is set, the index is 1 at 6 and 11, the other node cleared at 11.
    pub fn to_six(self, helped: u32) -> Process
        ensures { result ≡ to_six self helped }
    {
        Process {
            point: 6,
            helped,
            index: 1,
            ..self
        }
    }

    pub fn to_nine(self, helped: u32) -> Process
        ensures { result ≡ to_nine self helped }
    {
        Process {
            point: 9,
            helped,
            ..self
        }
    }

    pub fn to_ten(self, helped: u32) -> Process
        ensures { result ≡ to_ten self helped }
    {
        Process {
            point: 10,
            helped,
            ..self
        }
    }

    pub fn to_eleven(self, helped: u32) -> Process
        ensures { result ≡ to_eleven self helped }
    {
        Process {
            point: 11,
            helped,
            index: 1,
            ..self.with_other(0)
        }
    }

    pub fn goes_on(self) -> Stepped
        ensures { result ≡ going_on self }
    {
        Stepped {
            progress: Progress::GoesOn,
            process: Process {
                steps: steps_up(self.steps),
                ..self
            },
        }
    }

    // "An answer leaves the process idle and reports the steps."
    pub fn ends(self, answer: Answer) -> Stepped
        ensures { result ≡ ending_of self answer }
    {
        Stepped {
            progress: Progress::Ended(answer, steps_up(self.steps)),
            process: Process::idle(),
        }
    }
}

// "Each accepted step .. adds 1 to steps (which stays at 4,294,967,295 once there)".
#[tactic(auto, unfolding(tables::specs::Choice::pick))]
pub fn steps_up(steps: u32) -> u32
    ensures { result ≡ steps_up steps }
{
    steps.saturating_add(1)
}

pub fn is_clean(seen: Pending) -> bool
    ensures { result ≡ is_clean_of seen }
{
    matches!(seen, Pending::Clean(_))
}
