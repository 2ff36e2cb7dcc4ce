//! The files that a command names, each read to its end or to its limit before its text is judged; a point file in the text form is
//! judged as it is read.
ghost use Rattle.std.specs.Prelude.{◌≡◌, ℕ, ◌<◌, ◌≤◌, List, [], length, IfSome, IfOk, IfErr, OnOk};
ghost use Rattle.bounds_model.specs.Asks as asks;
ghost use Rattle.bounds_model.specs.Asks.{Suits, IsValid, shape_of};
ghost use Rattle.bounds_model.specs.ErrorLines.{points_file, answer_file, out_of_memory};
ghost use Rattle.bounded_coords.specs.Asked.{asked};
ghost use Rattle.answers.specs.Answers.{report_of};
ghost use Rattle.bnd_io.specs.Files.{bytes_of};
ghost use Rattle.point_text.specs.declared.text.Form.TheVariants as forms;
ghost use Rattle.point_text.specs.Keeping.{KeepsPoint};
ghost use Rattle.point_text.specs.Reading.{StandsFor, HasFailed, bytes_taken};
ghost use Rattle.bounds_tool.specs.Judging.{points_in, answer_in, limit_of};
ghost use Rattle.bounds_tool.specs.Causes.{meant, meant_file};
ghost use Rattle.bounds_tool.specs.Run.{FileCause, PointsCause, AnswerCause};
ghost use Rattle.bounds_tool.specs.FilesLeft.{ReadFrom};

use crate::cause::{Cause, InputFile};
use answers::Report;
use bnd_io::{FileBytes, Files, LoadFault, load};
use bounded_coords::Ask;
use point_text::{Form, OwnedSets, Reader, parse};
use pouring::pour;
use std::alloc::Global;
use witness_format::read_report;

/// The most bytes of a file.
fn limit(file: InputFile) -> u32
    ensures { result ≡ limit_of (meant_file file) }
{
    match file {
        InputFile::Points => 1 << 21,
        InputFile::Answer => 1 << 23,
    }
}

/// Opens a file, and reads it to its end or to one byte past its limit. Memory is wanted only for bytes that it has.
fn read_file<F: Files>(
    alloc: Global,
    file: InputFile,
    name: &str,
    files: &mut F,
) -> Result<FileBytes, Cause>
    ensures files { ReadFrom (meant_file file) name.now (F.state files.old) (F.state files.new) result }
    ensures bytes { IfOk result (λ bytes. IfSome (F.state files.old).told (λ folder. bytes_of folder name.now ≡ bytes)) }
    ensures within { IfOk result (λ bytes. length bytes ≤ limit_of (meant_file file)) }
    ensures cause { IfErr result
        (λ cause. FileCause F.last_count (meant_file file) name.now (F.state files.old) (F.state files.new) (meant cause)) }
    ensures memory { IfErr result (λ cause. meant cause ≡ out_of_memory
        → IfSome (F.state files.old).told (λ folder. 0 < length (bytes_of folder name.now))) }
{
    if files.open(name).is_err() {
        return Err(Cause::NotOpened(file));
    }
    match load(alloc, files, limit(file)) {
        Ok(bytes) => Ok(bytes),
        Err(LoadFault::ReadFailed) => Err(Cause::NotRead(file)),
        Err(LoadFault::TooLong) => Err(Cause::TooLong(file)),
        Err(LoadFault::OutOfMemory) => Err(Cause::OutOfMemory),
    }
}

/// Opens a point file, and pours it into a reader of no bytes, to its end or to one byte past its limit.
fn pour_file<F: Files>(reader: &mut Reader, name: &str, files: &mut F) -> Result<(), Cause>
    requires empty { (shape : asks.Shape) × StandsFor reader.old shape [] }
    requires going { HasFailed reader.old → ⊥ }
    ensures files { ReadFrom points_file name.now (F.state files.old) (F.state files.new) result }
    ensures stands { OnOk result ((shape : asks.Shape) → StandsFor reader.old shape [] →
        (bytes : List ℕ) × StandsFor reader.new shape bytes × IfSome (F.state files.old).told (λ folder. bytes_of folder name.now ≡ bytes)) }
    ensures within { OnOk result (bytes_taken reader.new ≤ limit_of points_file) }
    ensures cause { IfErr result (λ cause. FileCause F.last_count points_file name.now (F.state files.old) (F.state files.new) (meant cause)) }
    ensures kept { IfErr result (λ cause. meant cause ≡ out_of_memory → (shape : asks.Shape) → StandsFor reader.old shape [] →
        IfSome (F.state files.old).told (λ folder. KeepsPoint shape (bytes_of folder name.now))) }
{
    if files.open(name).is_err() {
        return Err(Cause::NotOpened(InputFile::Points));
    }
    match pour(reader, files) {
        Ok(()) => Ok(()),
        Err(LoadFault::ReadFailed) => Err(Cause::NotRead(InputFile::Points)),
        Err(LoadFault::TooLong) => Err(Cause::TooLong(InputFile::Points)),
        Err(LoadFault::OutOfMemory) => Err(Cause::OutOfMemory),
    }
}

/// The points of a text, which is judged as it is read.
fn pour_points<F: Files>(
    alloc: Global,
    ask: &Ask,
    name: &str,
    files: &mut F,
) -> Result<OwnedSets, Cause>
    requires { IsValid (asked ask.now) }
    ensures files { ReadFrom points_file name.now (F.state files.old) (F.state files.new) result }
    ensures points { IfOk result (λ points. IfSome (F.state files.old).told
        (λ folder. points_in forms.Text (asked ask.now) (bytes_of folder name.now) ≡ Ok points)) }
    ensures suits { IfOk result (λ points. Suits (asked ask.now) points.sets) }
    ensures cause { IfErr result
        (λ cause. PointsCause F.last_count forms.Text (asked ask.now) name.now (F.state files.old) (F.state files.new) (meant cause)) }
{
    let mut reader = Reader::new(alloc, ask);
    pour_file(&mut reader, name, files)?;
    match reader.finish() {
        Ok(points) => Ok(points),
        Err(fault) => Err(Cause::from(fault)),
    }
}

/// The points of a file of comma-separated fields, which is loaded whole.
fn load_points<F: Files>(
    alloc: Global,
    ask: &Ask,
    name: &str,
    files: &mut F,
) -> Result<OwnedSets, Cause>
    requires { IsValid (asked ask.now) }
    ensures files { ReadFrom points_file name.now (F.state files.old) (F.state files.new) result }
    ensures points { IfOk result (λ points. IfSome (F.state files.old).told
        (λ folder. points_in forms.Csv (asked ask.now) (bytes_of folder name.now) ≡ Ok points)) }
    ensures suits { IfOk result (λ points. Suits (asked ask.now) points.sets) }
    ensures cause { IfErr result
        (λ cause. PointsCause F.last_count forms.Csv (asked ask.now) name.now (F.state files.old) (F.state files.new) (meant cause)) }
{
    let bytes = read_file(alloc, InputFile::Points, name, files)?;
    match parse(alloc, bytes.as_slice(), Form::Csv, ask) {
        Ok(points) => Ok(points),
        Err(fault) => Err(Cause::from(fault)),
    }
}

/// The points of a point file of this form, for what is asked.
pub(crate) fn read_points<F: Files>(
    alloc: Global,
    ask: &Ask,
    form: Form,
    name: &str,
    files: &mut F,
) -> Result<OwnedSets, Cause>
    requires { IsValid (asked ask.now) }
    ensures files { ReadFrom points_file name.now (F.state files.old) (F.state files.new) result }
    ensures points { IfOk result (λ points. IfSome (F.state files.old).told
        (λ folder. points_in form (asked ask.now) (bytes_of folder name.now) ≡ Ok points)) }
    ensures suits { IfOk result (λ points. Suits (asked ask.now) points.sets) }
    ensures cause { IfErr result
        (λ cause. PointsCause F.last_count form (asked ask.now) name.now (F.state files.old) (F.state files.new) (meant cause)) }
{
    match form {
        Form::Text => pour_points(alloc, ask, name, files),
        Form::Csv => load_points(alloc, ask, name, files),
    }
}

/// The report of an answer file.
pub(crate) fn read_answer<F: Files>(
    alloc: Global,
    name: &str,
    files: &mut F,
) -> Result<Report, Cause>
    ensures files { ReadFrom answer_file name.now (F.state files.old) (F.state files.new) result }
    ensures answer { IfOk result (λ report. IfSome (F.state files.old).told
        (λ folder. answer_in (bytes_of folder name.now) ≡ Ok (report_of report))) }
    ensures cause { IfErr result (λ cause. AnswerCause F.last_count name.now (F.state files.old) (F.state files.new) (meant cause)) }
{
    let bytes = read_file(alloc, InputFile::Answer, name, files)?;
    match read_report(alloc, bytes.as_slice()) {
        Ok(report) => Ok(report),
        Err(fault) => Err(Cause::from(fault)),
    }
}
