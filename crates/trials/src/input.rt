// What a case brings: its head, and the bytes, words and numbers that follow it. A word that cannot be read is 0.
use std::io::Read;

// What a case does (main.rt).
#[derive(Clone, Copy)]
pub enum Kind {
    Table,
    Numbers,
    Filled,
    Changed,
    Draw,
    Check,
    Width,
    Wide,
    Stroke,
    Name,
    Hang,
    Cut,
    Hold,
    Held,
    Compare,
}

// A word that stands for no kind.
#[derive(Clone, Copy)]
pub struct UnknownKind(pub u16);

impl TryFrom<u16> for Kind {
    type Error = UnknownKind;

    fn try_from(word: u16) -> Result<Self, UnknownKind> {
        match word {
            1 => Ok(Kind::Table),
            2 => Ok(Kind::Numbers),
            3 => Ok(Kind::Filled),
            4 => Ok(Kind::Changed),
            5 => Ok(Kind::Draw),
            6 => Ok(Kind::Check),
            7 => Ok(Kind::Width),
            8 => Ok(Kind::Wide),
            9 => Ok(Kind::Stroke),
            10 => Ok(Kind::Name),
            11 => Ok(Kind::Hang),
            12 => Ok(Kind::Cut),
            13 => Ok(Kind::Hold),
            14 => Ok(Kind::Held),
            15 => Ok(Kind::Compare),
            _ => Err(UnknownKind(word)),
        }
    }
}

// The four words that a case begins with: its kind, and three whose meaning the kind says.
#[derive(Clone, Copy)]
pub struct Head {
    pub kind: Kind,
    pub count: u16,
    pub first: u16,
    pub step: u16,
}

// Reads until the bytes are full, the input ends or a read fails, which is no error: what is not read stays as it was.
pub fn read_full(input: &mut impl Read, bytes: &mut [u8]) {
    let _ = input.read_exact(bytes);
}

// A word has 16 bits, low byte first.
pub fn next_word(input: &mut impl Read) -> u16 {
    let mut bytes = [0; 2];
    read_full(input, &mut bytes);
    u16::from_le_bytes(bytes)
}

// A number has 64 bits: four words, low word first, each a read of its own, so that after a word that cannot be read the next one is tried.
pub fn next_number(input: &mut impl Read) -> u64 {
    u64::from(next_word(input))
        + 0x1_0000 * u64::from(next_word(input))
        + 0x1_0000_0000 * u64::from(next_word(input))
        + 0x1_0000_0000_0000 * u64::from(next_word(input))
}

// The head of the next case. Where the input has ended, the kind is 0, which is no kind.
pub fn next_head(input: &mut impl Read) -> Result<Head, UnknownKind> {
    let kind = next_word(input);
    let count = next_word(input);
    let first = next_word(input);
    let step = next_word(input);
    Ok(Head {
        kind: Kind::try_from(kind)?,
        count,
        first,
        step,
    })
}

// A word mod 256.
pub fn low_byte(word: u16) -> u8 {
    word.to_le_bytes()[0]
}
