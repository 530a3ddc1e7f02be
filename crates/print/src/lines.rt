// What stands in a line: in one of the script, and in one of the bench's answer. Numbers are those of document 01.
// The operation is 1 find, 2 insert, 3 delete, and 0 where the word is none of these: the call then refuses it.
#[derive(Clone, Copy)]
pub struct StartLine {
    pub process: u32,
    pub op: u32,
    pub key: u32,
}

#[derive(Clone, Copy)]
pub struct StepLine {
    pub process: u32,
    pub times: u32,
}

// The answer is 0 no, 1 yes, 2 full: a number, since `answer_line` says what is written for each.
#[derive(Clone, Copy)]
pub struct AnswerLine {
    pub process: u32,
    pub op: u32,
    pub key: u32,
    pub answer: u32,
    pub steps: u32,
}

#[derive(Clone, Copy)]
pub struct CountLine {
    pub count: u32,
    pub nodes: u32,
    pub records: u32,
}
