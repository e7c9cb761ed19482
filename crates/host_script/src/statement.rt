// What a line says by itself.
ghost use Rattle.std.specs.Prelude.{◌≡◌, ◌≤◌};
ghost use Rattle.script_model.specs.Lines.{session_line, attach_line, fill_line, show_line};
ghost use Rattle.script_model.specs.Lines.{transfer_line, write_line, flush_line, trim_line};
ghost use Rattle.script_model.specs.Lines.{close_line, raw_line, wait_line, end_line, statement};
ghost use Rattle.script_model.specs.Lines.{sends, opcode_number};

use crate::line::Line;
use crate::number::{byte, number, record_bytes};
use host_record::{Finish, Opcode, Request};
use script_model::{Keyword, ScriptCause, ScriptLine, Statement};

impl<'a> Line<'a> {
    #[tactic(auto, unfolding(script_model::specs::Lines::session_line))]
    fn session(&self) -> Result<Statement, ScriptCause>
        ensures { result ≡ session_line self.now }
    {
        self.has_count(2)?;
        let part = number(self.word(1), 1, 1024)? as u32;
        Ok(Statement::Begin { part })
    }

    #[tactic(auto, unfolding(script_model::specs::Lines::attach_line))]
    fn attach(&self) -> Result<Statement, ScriptCause>
        ensures { result ≡ attach_line self.now }
    {
        self.has_count(2)?;
        let pages = self.count_at(1)?;
        Ok(Statement::Do {
            line: ScriptLine::Attach { pages },
        })
    }

    #[tactic(auto, unfolding(script_model::specs::Lines::fill_line))]
    fn fill(&self) -> Result<Statement, ScriptCause>
        ensures { result ≡ fill_line self.now }
    {
        self.has_count(5)?;
        let id = self.u16_at(1)?;
        let block = u32::from(self.u16_at(2)?);
        let count = self.count_at(3)?;
        let [byte] = byte(self.word(4))?;
        Ok(Statement::Do {
            line: ScriptLine::Fill {
                id,
                block,
                count,
                byte,
            },
        })
    }

    #[tactic(auto, unfolding(script_model::specs::Lines::show_line))]
    fn show(&self) -> Result<Statement, ScriptCause>
        ensures { result ≡ show_line self.now }
    {
        self.has_count(4)?;
        let id = self.u16_at(1)?;
        let block = u32::from(self.u16_at(2)?);
        let count = self.count_at(3)?;
        Ok(Statement::Do {
            line: ScriptLine::Show { id, block, count },
        })
    }

    #[tactic(auto, unfolding(script_model::specs::Lines::transfer_line))]
    fn transfer(&self, command: u32, count: usize) -> Result<Statement, ScriptCause>
        requires command { command ≤ 0x1002 }
        requires count { (6 ≤ count) × (count ≤ 7) }
        ensures { result ≡ transfer_line command count self.now }
    {
        let bits = self.group_bits(count)?;
        let reqid = self.u32_at(1)?;
        let vmoid = self.u16_at(2)?;
        let vmo_offset = self.u64_at(3)?;
        let dev_offset = self.u64_at(4)?;
        let length = self.u32_at(5)?;
        let group = self.group_number(count)?;
        Ok(sends(&Request {
            command: command + bits,
            reqid,
            group,
            vmoid,
            length,
            vmo_offset,
            dev_offset,
        }))
    }

    #[tactic(auto, unfolding(script_model::specs::Lines::write_line))]
    fn write(&self) -> Result<Statement, ScriptCause>
        ensures { result ≡ write_line self.now }
    {
        let force = self.force_bit()?;
        self.transfer(opcode_number(Opcode::Write) + force, self.write_count())
    }

    #[tactic(auto, unfolding(script_model::specs::Lines::flush_line))]
    fn flush(&self) -> Result<Statement, ScriptCause>
        ensures { result ≡ flush_line self.now }
    {
        let bits = self.group_bits(2)?;
        let reqid = self.u32_at(1)?;
        let group = self.group_number(2)?;
        Ok(sends(&Request {
            command: opcode_number(Opcode::Flush) + bits,
            reqid,
            group,
            vmoid: 0,
            length: 0,
            vmo_offset: 0,
            dev_offset: 0,
        }))
    }

    #[tactic(auto, unfolding(script_model::specs::Lines::trim_line))]
    fn trim(&self) -> Result<Statement, ScriptCause>
        ensures { result ≡ trim_line self.now }
    {
        let bits = self.group_bits(4)?;
        let reqid = self.u32_at(1)?;
        let dev_offset = self.u64_at(2)?;
        let length = self.u32_at(3)?;
        let group = self.group_number(4)?;
        Ok(sends(&Request {
            command: opcode_number(Opcode::Trim) + bits,
            reqid,
            group,
            vmoid: 0,
            length,
            vmo_offset: 0,
            dev_offset,
        }))
    }

    #[tactic(auto, unfolding(script_model::specs::Lines::close_line))]
    fn close(&self) -> Result<Statement, ScriptCause>
        ensures { result ≡ close_line self.now }
    {
        let bits = self.group_bits(3)?;
        let reqid = self.u32_at(1)?;
        let vmoid = self.u16_at(2)?;
        let group = self.group_number(3)?;
        Ok(sends(&Request {
            command: opcode_number(Opcode::Close) + bits,
            reqid,
            group,
            vmoid,
            length: 0,
            vmo_offset: 0,
            dev_offset: 0,
        }))
    }

    #[tactic(auto, unfolding(script_model::specs::Lines::raw_line))]
    fn raw(&self) -> Result<Statement, ScriptCause>
        ensures { result ≡ raw_line self.now }
    {
        self.has_count(2)?;
        let bytes = record_bytes(self.word(1))?;
        Ok(Statement::Do {
            line: ScriptLine::Send { bytes },
        })
    }

    #[tactic(auto, unfolding(script_model::specs::Lines::wait_line))]
    fn wait(&self) -> Result<Statement, ScriptCause>
        ensures { result ≡ wait_line self.now }
    {
        if self.count() == 1 {
            return Ok(Statement::Do {
                line: ScriptLine::WaitAll,
            });
        }
        self.has_count(2)?;
        let total = number(self.word(1), 1, 0xffff_ffff)? as u32;
        Ok(Statement::Do {
            line: ScriptLine::WaitFor { total },
        })
    }

    #[tactic(auto, unfolding(script_model::specs::Lines::end_line))]
    fn end(&self, finish: Finish) -> Result<Statement, ScriptCause>
        ensures { result ≡ end_line finish self.now }
    {
        self.has_count(1)?;
        Ok(Statement::End { finish })
    }

    /// What the line says, where it begins with this word.
    #[tactic(auto, unfolding(script_model::specs::Lines::statement))]
    pub fn statement(&self, keyword: Keyword) -> Result<Statement, ScriptCause>
        ensures { result ≡ statement keyword self.now }
    {
        match keyword {
            Keyword::Session => self.session(),
            Keyword::Attach => self.attach(),
            Keyword::Fill => self.fill(),
            Keyword::Show => self.show(),
            Keyword::Read => self.transfer(opcode_number(Opcode::Read), 6),
            Keyword::Write => self.write(),
            Keyword::Flush => self.flush(),
            Keyword::Trim => self.trim(),
            Keyword::Close => self.close(),
            Keyword::Raw => self.raw(),
            Keyword::Wait => self.wait(),
            Keyword::Drain => self.end(Finish::Drain),
            Keyword::Abort => self.end(Finish::Abort),
        }
    }
}

fn sends(request: &Request) -> Statement
    ensures { result ≡ sends request.now }
{
    Statement::Do {
        line: ScriptLine::Send {
            bytes: request.to_bytes(),
        },
    }
}

fn opcode_number(opcode: Opcode) -> u32
    ensures { result ≡ opcode_number opcode }
{
    match opcode {
        Opcode::Read => 1,
        Opcode::Write => 2,
        Opcode::Flush => 3,
        Opcode::Trim => 4,
        Opcode::Close => 5,
    }
}
