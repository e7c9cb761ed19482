use crate::ScriptLine;
use host_record::Finish;

/// What a line says.
#[derive(Clone, Copy)]
pub enum Statement {
    Begin { part: u32 },
    Do { line: ScriptLine },
    End { finish: Finish },
}
