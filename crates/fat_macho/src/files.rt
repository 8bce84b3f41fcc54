//! Writers and files of the system. They are the trusted edge: what a file holds isn't known.

ghost use Rattle.std.specs.Prelude.{◌≡◌, ◌⊎◌, IfErr, OnOk, OnErr};
ghost use Rattle.fat_macho.specs.Held.{IsAddError, AddsShapes, KeepsSlices, SomeRose};
ghost use Rattle.fat_macho.specs.declared.error.Error.TheVariants.{Io};
ghost use Rattle.fat_macho.specs.declared.error.IoCause.TheVariants.{Source as SourceFault, Sink as SinkFault, Open as OpenFault};

use crate::{Error, FatWriter, IoCause};
use byte_core::{FileSink, FileSource, Source};
use std::fs::OpenFile;
use std::io::{Read, Seek};
use std::rt::Files;

impl<F: Read + Seek + OpenFile + Drop> FatWriter<'_, FileSource<F>> {
    /// Opens the file of this path and adds it as a source. The cause of an `Io` is `Open` where it was not opened.
    pub fn add_file<R: Files<File = F>>(&mut self, rt: &R, path: &str) -> Result<(), Error>
        ensures added { OnOk result (AddsShapes self.old self.new) }
        ensures kinds { IfErr result (λ e. (e ≡ Io OpenFault) ⊎ IsAddError e) }
        ensures err { OnErr result (self.new ≡ self.old) }
    {
        let Ok(source) = FileSource::open(rt, path) else {
            return Err(Error::Io(IoCause::Open));
        };
        self.add_source(source)
    }
}

impl<S: Source + Drop> FatWriter<'_, S> {
    /// Writes the fat file into a new file of this path, in place of one that is there, and no bytes where there are no
    /// slices. The cause of an `Io` is `Open` where the file was not made.
    pub fn write_to_file<R: Files>(&mut self, rt: &R, path: &str) -> Result<(), Error>
        ensures reading { IfErr result (λ e. e ≡ Io SourceFault → SomeRose self.old self.new) }
        ensures opening { IfErr result (λ e. e ≡ Io OpenFault → self.new ≡ self.old) }
        ensures causes { IfErr result (λ e. (e ≡ Io OpenFault) ⊎ ((e ≡ Io SourceFault) ⊎ (e ≡ Io SinkFault))) }
        ensures kept { KeepsSlices self.old self.new }
    {
        let Ok(mut sink) = FileSink::create(rt, path) else {
            return Err(Error::Io(IoCause::Open));
        };
        self.write_to(&mut sink)
    }
}
