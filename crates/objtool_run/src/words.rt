//! The words of the command line.

ghost use Rattle.std.specs.Prelude.{◌≡◌, map, string_bytes, option_map, IfSome};
ghost use Rattle.std.specs.List.{list_all};
ghost use Rattle.objtool_run.specs.Asked.{asked, IsInRange};
ghost use Rattle.objtool_run.specs.Words.{is_digit, is_number, number_up_to, names_of, gen_of, request_named, request_with, request_of_two, request_by, request_over, request_of};

/// What the words of a command line ask for.
#[derive(Clone, Copy, Debug)]
pub(crate) enum Request<'a> {
    /// The file of the input's parts, as a line of hexadecimal.
    Build,
    /// The file of the input's parts, as it is.
    Raw,
    /// What the input is read as, as a line of JSON.
    Read,
    /// The name of a relocation: the machine as in an ELF header, and the relocation's number.
    Names { machine: u16, number: u32 },
    /// What a library answers to the input's JSON value.
    Ask(Query),
    /// The bytes in memory of the definitions of the input's images, a line each.
    Place,
    /// The slice of the architecture of this name, out of the input.
    Extract(&'a str),
    /// The fat file of the slices of the files of these paths.
    Join(&'a [String]),
    /// The summary of the generated part of a seed and a count.
    Gen { seed: u32, count: u32 },
}

/// What is asked over a JSON value.
#[derive(Clone, Copy, Debug, PartialEq, Eq)]
pub(crate) enum Query {
    /// The declarations that it stands for, written again.
    Declarations,
    /// The bytes of a PE file that its signature covers.
    Signed,
    /// The CLR metadata of a PE file.
    Clr,
    /// The load configuration of a PE file.
    LoadConfig,
    /// The thread-local data of a PE file.
    Tls,
}

/// The request that the words name, if any.
pub(crate) fn request_of<'a>(words: &'a [String]) -> Option<Request<'a>>
    ensures named { option_map asked result ≡ request_of (map string_bytes words.now) }
    ensures ranged { IfSome result (λ request. IsInRange (asked request)) }
{
    match words {
        [] => None,
        [command] => request_named(command.as_str()),
        [command, words @ ..] => request_over(command.as_str(), words),
    }
}

// What a command with words asks for.
fn request_over<'a>(command: &str, words: &'a [String]) -> Option<Request<'a>>
    ensures named { option_map asked result ≡ request_over command.now (map string_bytes words.now) }
    ensures ranged { IfSome result (λ request. IsInRange (asked request)) }
{
    if command == "join" {
        return Some(Request::Join(words));
    }
    request_by(command, words)
}

// What a command with other words than paths asks for.
#[tactic(auto, using(crate::proofs::CommandWords::by_many))]
fn request_by<'a>(command: &str, words: &'a [String]) -> Option<Request<'a>>
    ensures named { option_map asked result ≡ request_by command.now (map string_bytes words.now) }
    ensures ranged { IfSome result (λ request. IsInRange (asked request)) }
{
    match words {
        [] => None,
        [word] => request_with(command, word.as_str()),
        [first, second] => request_of_two(command, first.as_str(), second.as_str()),
        [_, _, _, ..] => None,
    }
}

// What the word of a command alone asks for.
#[tactic(auto, unfolding(crate::specs::Words::request_named))]
fn request_named<'a>(word: &str) -> Option<Request<'a>>
    ensures named { option_map asked result ≡ request_named word.now }
    ensures ranged { IfSome result (λ request. IsInRange (asked request)) }
{
    match word {
        "build" => Some(Request::Build),
        "read" => Some(Request::Read),
        "place" => Some(Request::Place),
        "declarations" => Some(Request::Ask(Query::Declarations)),
        "signed" => Some(Request::Ask(Query::Signed)),
        "clr" => Some(Request::Ask(Query::Clr)),
        "loadconfig" => Some(Request::Ask(Query::LoadConfig)),
        "tls" => Some(Request::Ask(Query::Tls)),
        _ => None,
    }
}

// What a command with one word asks for.
fn request_with<'a>(command: &str, word: &'a str) -> Option<Request<'a>>
    ensures named { option_map asked result ≡ request_with command.now word.now }
    ensures ranged { IfSome result (λ request. IsInRange (asked request)) }
{
    match command {
        "build" if word == "--raw" => Some(Request::Raw),
        "extract" => Some(Request::Extract(word)),
        _ => None,
    }
}

// What a command with two numbers asks for.
fn request_of_two<'a>(command: &str, first: &str, second: &str) -> Option<Request<'a>>
    ensures named { option_map asked result ≡ request_of_two command.now first.now second.now }
    ensures ranged { IfSome result (λ request. IsInRange (asked request)) }
{
    match command {
        "names" => names_of(first, second),
        "gen" => gen_of(first, second),
        _ => None,
    }
}

// A machine and a relocation by their numbers.
fn names_of<'a>(machine: &str, number: &str) -> Option<Request<'a>>
    ensures named { option_map asked result ≡ names_of (number_up_to 65535 machine.now) (number_up_to 4294967295 number.now) }
    ensures ranged { IfSome result (λ request. IsInRange (asked request)) }
{
    let machine = number_up_to(machine, 65_535)?;
    let number = number_up_to(number, 4_294_967_295)?;
    Some(Request::Names {
        machine: machine as u16,
        number: number as u32,
    })
}

// A seed and a count by their numbers.
fn gen_of<'a>(seed: &str, count: &str) -> Option<Request<'a>>
    ensures named { option_map asked result ≡ gen_of (number_up_to 2147483647 seed.now) (number_up_to 100000 count.now) }
    ensures ranged { IfSome result (λ request. IsInRange (asked request)) }
{
    let seed = number_up_to(seed, 2_147_483_647)?;
    let count = number_up_to(count, 100_000)?;
    if count == 0 {
        return None;
    }
    Some(Request::Gen {
        seed: seed as u32,
        count: count as u32,
    })
}

// The number that a word writes, where it is one up to this limit.
fn number_up_to(word: &str, limit: u64) -> Option<u64>
    ensures { result ≡ number_up_to limit word.now }
{
    if !is_number(word.as_bytes()) {
        return None;
    }
    match word.parse::<u64>() {
        Ok(number) if number <= limit => Some(number),
        Ok(_) => None,
        Err(_) => None,
    }
}

// Whether a word is decimal digits, without a leading zero where there is more than one.
fn is_number(word: &[u8]) -> bool
    ensures { result ≡ is_number word.now }
{
    match word {
        [] => false,
        [digit] => is_digit(*digit),
        [first, rest @ ..] => is_digit(*first) && *first != b'0' && are_digits(rest),
    }
}

fn are_digits(bytes: &[u8]) -> bool
    ensures { result ≡ list_all is_digit bytes.now }
{
    bytes.iter().all(|byte| is_digit(*byte))
}

fn is_digit(byte: u8) -> bool
    ensures { result ≡ is_digit byte }
{
    byte >= b'0' && byte <= b'9'
}
