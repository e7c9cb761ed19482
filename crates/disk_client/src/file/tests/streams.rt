use host_file::{StdSink, StdSource, WordsError, program_words};
use host_io::{Sink, Source};
use std::env::FillError;
use std::fs;
use std::io::pipe;
use std::rt::Env;
use std::test::Fail;

#[test]
fn a_real_pipe(rt: HostRuntime) -> Result<(), Fail> {
    let (reader, writer) = pipe(&rt)?;
    let mut out = StdSink::new(writer);
    let mut script = StdSource::new(reader);
    let mut into = [0u8; 5];
    assert!(rt; out.put(b"abc") == Ok(3));
    assert!(rt; script.take(&mut into) == Ok(3));
    assert_eq!(rt; into, [b'a', b'b', b'c', 0, 0]);
    drop(out);
    assert!(rt; script.take(&mut into) == Ok(0));
    Ok(())
}

#[test]
fn a_real_refusal(rt: HostRuntime) -> Result<(), Fail> {
    let (reader, writer) = pipe(&rt)?;
    drop(reader);
    assert!(rt; StdSink::new(writer).put(b"abc").is_err());
    let mut into = [0u8; 5];
    let folder = fs::open(&rt, "/")?;
    assert!(rt; StdSource::new(folder).take(&mut into).is_err());
    Ok(())
}

// A system with these words.
#[derive(Clone, Copy)]
struct System {
    words: &'static [&'static [u8]],
}

impl Env for System {
    fn arg(&self, i: usize, buf: &mut [u8]) -> Result<usize, FillError> {
        match self.words.get(i) {
            None => Err(FillError::NotPresent),
            Some(word) if word.len() > buf.len() => Err(FillError::TooLong),
            Some(word) => {
                buf[..word.len()].copy_from_slice(word);
                Ok(word.len())
            }
        }
    }

    fn var(&self, _name: &str, _buf: &mut [u8]) -> Result<usize, FillError> {
        Err(FillError::NotPresent)
    }

    fn var_at(&self, _i: usize, _buf: &mut [u8]) -> Result<usize, FillError> {
        Err(FillError::NotPresent)
    }
}

#[test]
fn words_of_a_system(rt: HostRuntime) -> Result<(), Fail> {
    let text = System {
        words: &[b"block\xffhost", b"list", b"base.img"],
    };
    let words = program_words(&(text, rt.alloc())).or(Err("words"))?;
    assert_eq!(rt; words.len(), 2);
    for (word, given) in words.iter().zip(["list", "base.img"]) {
        assert_eq!(rt; word.as_str(), given);
    }
    let no_text = System {
        words: &[b"blockhost", b"list", b"base\xff.img"],
    };
    assert!(rt; program_words(&(no_text, rt.alloc())).err() == Some(WordsError::NotText));
    Ok(())
}
