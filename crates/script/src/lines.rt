// What a line of the script asks for.
use print::lines::{StartLine, StepLine};
use tables::numbers::Making;

#[derive(Clone, Copy)]
pub enum Line {
    Making(Making),
    Start(StartLine),
    Steps(StepLine),
    List,
}
