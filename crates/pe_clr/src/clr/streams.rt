//! The streams of CLR metadata in turn: ECMA-335, partition II, "Stream header".

ghost use Rattle.std.specs.Prelude.{◌≡◌};
ghost use Rattle.std.specs.Option.{option_map};
ghost use Rattle.pe_core.specs.Steps.{Gives};
ghost use Rattle.pe_clr.specs.Storage.{stream_view};
ghost use Rattle.pe_clr.specs.Streams.{rows_counted, streams_counted, first_named, stream_bytes};

use crate::clr::{StorageHeader, StorageStream};
use pe_core::pe_error::{Case, Error};
use pe_core::steps::{demand, demand_bytes};
use std::iter::FusedIterator;
use std::marker::Model;

/// The streams of metadata in order, up to and with the first error.
#[derive(Debug, Drop)]
pub struct ClrSectionIterator<'a> {
    count: usize,
    left: usize,
    data: &'a [u8],
    offset: usize,
}

impl<'a> Model for ClrSectionIterator<'a> {
    ghost use Rattle.pe_clr.specs.Streams.{StreamsLeft};
    ghost use Rattle.pe_clr.specs.StreamsView.{streams_view};

    ghost Value = { StreamsLeft };

    ghost view = { streams_view };
}

impl<'a> ClrSectionIterator<'a> {
    /// As many streams as the storage header counts, none where there are no bytes.
    pub(crate) fn new(header: StorageHeader, bytes: &'a [u8]) -> ClrSectionIterator<'a>
        ensures { result ≡ record { count = header.streams; left = rows_counted bytes.now header.streams; answers = streams_counted bytes.now header.streams } }
    {
        let count = usize::from(header.streams);
        let left = if bytes.is_empty() { 0 } else { count };
        ClrSectionIterator {
            count,
            left,
            data: bytes,
            offset: 0,
        }
    }

    /// The number of streams that is stored, also where fewer come.
    pub fn count(&self) -> usize
        ensures { result ≡ self.now.count }
    {
        self.count
    }
}

impl<'a> Iterator for ClrSectionIterator<'a> {
    ghost use Rattle.std.specs.Prelude.{◌≡◌, Some, IfSome};
    ghost use Rattle.std.specs.Iterator.{at_most, UpTo};
    ghost use Rattle.std.specs.Iterator.SizeHint.{IsWithinCount};
    ghost use Rattle.pe_clr.specs.Streams.{GivesNext};

    type Item = Result<StorageStream<'a>, Error>;

    ghost next_gives = { GivesNext };

    ghost remaining = { λ streams. at_most streams.left };

    #[tactic(auto, unfolding(crate::specs::Streams::streams_from))]
    fn next(&mut self) -> Option<Result<StorageStream<'a>, Error>> {
        if self.left == 0 {
            return None;
        }
        let stream = StorageStream::parse(self.data, &mut self.offset);
        match stream {
            Ok(stream) => {
                self.left -= 1;
                Some(Ok(stream))
            }
            Err(error) => {
                self.left = 0;
                Some(Err(error))
            }
        }
    }

    fn size_hint(&self) -> (usize, Option<usize>)
        ensures lower { IsWithinCount result.0 (at_most self.now.left) }
        ensures upper { IfSome result.1 (UpTo (at_most self.now.left)) }
        ensures none { result.0 ≡ 0 }
        ensures left { result.1 ≡ Some self.now.left }
    {
        (0, Some(self.left))
    }
}

impl FusedIterator for ClrSectionIterator<'_> {}

/// The first stream of this name. An error before it is the answer.
#[tactic(auto, unfolding(crate::specs::Streams::first_named))]
pub fn first_named<'a>(
    mut streams: ClrSectionIterator<'a>,
    name: &str,
) -> Result<Option<StorageStream<'a>>, Error>
    ensures { Gives (option_map stream_view) result (first_named name.now streams.entry.answers) }
{
    while let Some(answer) = streams.next() {
        match answer {
            Ok(stream) => {
                if stream.name == name {
                    return Ok(Some(stream));
                }
            }
            Err(error) => return Err(error),
        }
    }
    Ok(None)
}

/// The bytes of a stream, whose offset counts `skipped` bytes before these.
#[tactic(auto, unfolding(crate::specs::Streams::stream_bytes, byte_core::specs::Number::bytes_at))]
pub fn stream_bytes<'a>(
    bytes: &'a [u8],
    skipped: usize,
    stream: StorageStream<'a>,
) -> Result<&'a [u8], Error>
    ensures { Gives (λ range. range.now) result (stream_bytes bytes.now skipped (stream_view stream.entry)) }
{
    let offset = stream.offset as usize;
    demand(skipped <= offset, Case::StreamBeforeMetadata)?;
    let start = offset - skipped;
    let size = stream.size as usize;
    demand_bytes(bytes, start, size)?;
    Ok(&bytes[start..start + size])
}
