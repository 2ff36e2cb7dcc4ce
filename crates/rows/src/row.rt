//! A row of a table: some runs of the top call, and how each of them ends.

use crate::bytes::push_text;
use anyhow::{Context, Result, bail, ensure};
use std::alloc::{AllocError, Global};

/// What the files and sinks of a run are.
#[derive(Clone, Copy)]
pub(crate) enum Over {
    /// Those in memory that can fail.
    Memory,
    /// Those in memory that never fail.
    Sure,
    /// The files of the system, beside the tables.
    Real,
    /// The same, with an output that takes nothing.
    Full,
}

/// A file of a row.
#[derive(Drop)]
pub(crate) struct NamedFile {
    pub(crate) name: String,
    pub(crate) bytes: Vec<u8>,
}

/// The lengths to which a file is cut, one run for each. The name of no letters is that of no file.
#[derive(Drop)]
pub(crate) struct Cut {
    pub(crate) name: String,
    pub(crate) from: usize,
    pub(crate) to: usize,
}

/// How often the run opens the file of this name.
#[derive(Drop)]
pub(crate) struct Opened {
    pub(crate) name: String,
    pub(crate) count: u64,
}

/// The calls that fail, counted from 1.
#[derive(Drop)]
pub(crate) struct Failing {
    pub(crate) files: Vec<u32>,
    pub(crate) out: Vec<u32>,
    pub(crate) err: Vec<u32>,
}

/// A table, as far as its rows share it.
#[derive(Drop)]
pub(crate) struct Table {
    pub(crate) name: String,
    /// The lines before the first row. Its files are there for each row.
    pub(crate) shared: Row,
}

impl Table {
    pub(crate) fn new(alloc: Global, name: &str) -> Result<Table> {
        Ok(Table {
            name: String::from_str(alloc, name)?,
            shared: Row::new(alloc, name, 0)?,
        })
    }
}

/// A row. It has a run for each line of words, each size of pieces and each length of the file that is cut.
#[derive(Drop)]
pub(crate) struct Row {
    alloc: Global,
    pub(crate) name: String,
    pub(crate) line: usize,
    pub(crate) words: Vec<String>,
    pub(crate) files: Vec<NamedFile>,
    pub(crate) cut: Cut,
    pub(crate) failing: Failing,
    pub(crate) pieces: Vec<u32>,
    pub(crate) over: Over,
    pub(crate) status: u8,
    pub(crate) out: Vec<u8>,
    /// Whether the output may go on behind `out`.
    pub(crate) goes_on: bool,
    /// Whether `check` has to say yes to the output.
    pub(crate) is_checked: bool,
    pub(crate) err: Vec<u8>,
    /// How often files are opened, where the row says so.
    pub(crate) opened: Vec<Opened>,
    /// Whether the text that was begun last is the output, and not a file.
    in_output: bool,
}

impl Row {
    /// A row of no runs, which begins at this line of its table.
    pub(crate) fn new(alloc: Global, name: &str, line: usize) -> Result<Row> {
        Ok(Row {
            alloc,
            name: String::from_str(alloc, name)?,
            line,
            words: Vec::new(alloc),
            files: Vec::new(alloc),
            cut: Cut {
                name: String::new(alloc),
                from: 0,
                to: 0,
            },
            failing: Failing {
                files: Vec::new(alloc),
                out: Vec::new(alloc),
                err: Vec::new(alloc),
            },
            pieces: Vec::new(alloc),
            over: Over::Memory,
            status: 0,
            out: Vec::new(alloc),
            goes_on: false,
            is_checked: false,
            err: Vec::new(alloc),
            opened: Vec::new(alloc),
            in_output: false,
        })
    }

    /// Takes a line of the table: its first word, and the rest behind a space.
    pub(crate) fn take_line(&mut self, key: &str, rest: &str) -> Result<()> {
        if self.take_given(key, rest)? || self.take_wanted(key, rest)? {
            return Ok(());
        }
        bail!("no line begins with {key}")
    }

    /// Takes a line that says what is run, or answers that it is none.
    fn take_given(&mut self, key: &str, rest: &str) -> Result<bool> {
        if key == "words" {
            self.words.push(String::from_str(self.alloc, rest)?)?;
        } else if key == "file" {
            self.begin_file(rest)?;
        } else if key == "cut" {
            self.cut = read_cut(self.alloc, rest)?;
        } else if key == "fails" {
            self.failing.take_line(rest)?;
        } else if key == "pieces" {
            self.pieces.push(number(rest)?)?;
        } else if key == "over" {
            self.over = read_over(rest)?;
        } else {
            return Ok(false);
        }
        Ok(true)
    }

    /// Takes a line that says how a run ends or that continues a text, or answers that it is none.
    fn take_wanted(&mut self, key: &str, rest: &str) -> Result<bool> {
        if key == "status" {
            self.status = rest.parse::<u8>().context("the status")?;
        } else if key == "out" {
            self.begin_output(rest, false)?;
        } else if key == "begins" {
            self.begin_output(rest, true)?;
        } else if key == "checked" {
            self.is_checked = true;
        } else if key == "err" {
            push_text(&mut self.err, "bounds: ")?;
            push_text(&mut self.err, rest)?;
            self.err.push(b'\n')?;
        } else if key == "told" {
            push_text(&mut self.err, rest)?;
        } else if key == "opens" {
            self.opened.push(read_opened(self.alloc, rest)?)?;
        } else if key == "|" {
            let mut bytes = self.bytes(rest)?;
            bytes.push(b'\n')?;
            self.go_on(bytes.as_slice())?;
        } else if key == "times" {
            self.repeat(rest)?;
        } else {
            return Ok(false);
        }
        Ok(true)
    }

    fn bytes(&self, text: &str) -> Result<Vec<u8>> {
        let mut bytes = Vec::new(self.alloc);
        push_text(&mut bytes, text)?;
        Ok(bytes)
    }

    fn begin_file(&mut self, rest: &str) -> Result<()> {
        let (name, text) = first_word(rest);
        let file = NamedFile {
            name: String::from_str(self.alloc, name)?,
            bytes: self.bytes(text)?,
        };
        self.files.push(file)?;
        self.in_output = false;
        Ok(())
    }

    fn begin_output(&mut self, text: &str, goes_on: bool) -> Result<()> {
        push_text(&mut self.out, text)?;
        self.goes_on = goes_on;
        self.in_output = true;
        Ok(())
    }

    fn repeat(&mut self, rest: &str) -> Result<()> {
        let (count, text) = first_word(rest);
        let bytes = self.bytes(text)?;
        let many = repeated(self.alloc, bytes.as_slice(), number(count)?)?;
        self.go_on(many.as_slice())
    }

    /// Appends to the text that was begun last.
    fn go_on(&mut self, bytes: &[u8]) -> Result<()> {
        if self.in_output {
            self.out.extend_from_slice(bytes)?;
        } else if let Some(file) = self.files.last_mut() {
            file.bytes.extend_from_slice(bytes)?;
        } else {
            bail!("no text was begun");
        }
        Ok(())
    }
}

impl Failing {
    fn take_line(&mut self, rest: &str) -> Result<()> {
        let (what, call) = first_word(rest);
        let call = number(call)?;
        if what == "files" {
            self.files.push(call)?;
        } else if what == "out" {
            self.out.push(call)?;
        } else if what == "err" {
            self.err.push(call)?;
        } else {
            bail!("no calls are named by {rest}");
        }
        Ok(())
    }
}

/// The first word of a line, and the rest behind a space.
pub(crate) fn first_word(line: &str) -> (&str, &str) {
    line.split_once(' ').unwrap_or((line, ""))
}

fn read_cut(alloc: Global, rest: &str) -> Result<Cut> {
    let (name, lengths) = first_word(rest);
    let (from, to) = first_word(lengths);
    let from = number(from)? as usize;
    let to = number(to)? as usize;
    ensure!(from <= to, "there is no length from {from} to {to}");
    Ok(Cut {
        name: String::from_str(alloc, name)?,
        from,
        to,
    })
}

fn read_opened(alloc: Global, rest: &str) -> Result<Opened> {
    let (name, count) = first_word(rest);
    Ok(Opened {
        name: String::from_str(alloc, name)?,
        count: u64::from(number(count)?),
    })
}

fn read_over(rest: &str) -> Result<Over> {
    if rest == "memory" {
        Ok(Over::Memory)
    } else if rest == "sure" {
        Ok(Over::Sure)
    } else if rest == "real" {
        Ok(Over::Real)
    } else if rest == "full" {
        Ok(Over::Full)
    } else {
        bail!("no files are named {rest}")
    }
}

fn repeated(alloc: Global, bytes: &[u8], count: u32) -> Result<Vec<u8>, AllocError> {
    let mut many = Vec::new(alloc);
    for _ in 0..count {
        many.extend_from_slice(bytes)?;
    }
    Ok(many)
}

fn number(text: &str) -> Result<u32> {
    text.parse::<u32>().context("a number")
}
