// What a crash may leave, judged by the history alone.
use host_block::Op;
use host_device::Step;

/// How many blocks an image under this judge has, each made of one byte.
pub const BLOCKS: usize = 40;

/// Which bytes an image has after some steps, and which blocks of another may be left by a crash
/// then.
#[derive(Drop)]
struct Judge {
    content: [u8; BLOCKS],
    may: [bool; BLOCKS],
}

impl Judge {
    // After a flush a crash leaves the content.
    fn flush(&mut self, left: &[u8; BLOCKS]) {
        for b in 0..BLOCKS {
            self.may[b] = left[b] == self.content[b];
        }
    }

    // After a write it may leave that too.
    fn write(&mut self, b: u64, byte: u8, left: &[u8; BLOCKS]) {
        let b = (b % BLOCKS as u64) as usize;
        self.content[b] = byte;
        self.may[b] = self.may[b] || left[b] == byte;
    }

    fn step(&mut self, step: &Step, left: &[u8; BLOCKS]) {
        match step.op {
            Op::Read => {}
            Op::Write => {
                if let Some(byte) = step.bytes.as_slice().first() {
                    self.write(step.block, *byte, left);
                }
            }
            Op::Trim => self.write(step.block, 0, left),
            Op::Flush => self.flush(left),
        }
    }
}

/// Whether a crash after these steps may leave this image, where each block was made of `opening`
/// at first.
pub fn may_leave(steps: &[Step], opening: u8, left: &[u8; BLOCKS]) -> bool {
    let mut judge = Judge {
        content: [opening; BLOCKS],
        may: [false; BLOCKS],
    };
    judge.flush(left);
    for step in steps {
        if !step.faulted {
            judge.step(step, left);
        }
    }
    judge.may.iter().all(|may| *may)
}
