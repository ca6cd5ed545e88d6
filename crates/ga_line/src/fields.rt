ghost use Rattle.std.specs.Prelude.{◌≡◌, ◌∷◌, ◌++◌, [], ℕ, List, length, true};
ghost use Rattle.std.specs.Option.{option_copied, option_map};
ghost use Rattle.ga_line.specs.Fits.{Part, field, host_part};
ghost use Rattle.ga_line.specs.Steps.Fitting.{IsLetter, AreNoted, part_of, noted, noted_text, first_taken};
ghost use Rattle.ga_line.specs.Letters.{is_taken_letter};
ghost use Rattle.ga_line.specs.Shapes.{read_parts};
ghost use Rattle.ga_line.specs.Records.{day_text, request_text, taken_part};

/// The first letter that a field may have.
const FIRST_LETTER: u8 = b'@';

/// How many letters fields may have, from the first one on.
const LETTERS: usize = 64;

/// The letter of the client's address.
const HOST: u8 = b'h';

/// The texts of a line's fields. None is noted for a field that the line ended before, or that the format hasn't.
#[derive(Clone, Copy)]
pub(crate) struct Fields<'a> {
    /// By letters, from the first one on.
    texts: [Option<&'a [u8]>; LETTERS],
    /// The letter and the text of the first field with the time that the answer took.
    taken: Option<(u8, &'a [u8])>,
}

impl<'a> Fields<'a> {
    /// No field.
    pub fn none() -> Fields<'a>
        ensures { AreNoted [] result }
    {
        Fields {
            texts: [None; LETTERS],
            taken: None,
        }
    }

    /// Notes the text of one field more.
    pub fn note(&mut self, letter: u8, text: &'a [u8])
        ensures { (before : List Part) → AreNoted before self.old → AreNoted (before ++ (letter, text.now) ∷ []) self.new }
    {
        self.note_text(letter, text);
        self.note_taken(letter, text);
    }

    /// Notes the host, if there is one.
    pub fn note_host(&mut self, host: Option<&'a [u8]>)
        ensures { (before : List Part) → AreNoted before self.old → AreNoted (before ++ host_part (option_copied host.entry)) self.new }
    {
        if let Some(text) = host {
            self.note(HOST, text);
        }
    }

    /// Notes a text under its letter, if that is one that a field may have and has no text yet.
    fn note_text(&mut self, letter: u8, text: &'a [u8])
        ensures room { length self.new.texts ≡ length self.old.texts }
        ensures texts { length self.old.texts ≡ LETTERS → (other : ℕ) → IsLetter other → noted_text other self.new ≡ noted other (noted_text other self.old) (letter, text.now) }
        ensures taken { self.new.taken ≡ self.old.taken }
    {
        if letter >= FIRST_LETTER && letter < FIRST_LETTER + LETTERS as u8 {
            let at = (letter - FIRST_LETTER) as usize;
            self.texts[at] = self.texts[at].or(Some(text));
        }
    }

    /// Notes the first field with the time that the answer took.
    fn note_taken(&mut self, letter: u8, text: &'a [u8])
        ensures texts { self.new.texts ≡ self.old.texts }
        ensures taken { option_map part_of self.new.taken ≡ first_taken (option_map part_of self.old.taken) (letter, text.now) }
    {
        if self.taken.is_none() && is_taken_letter(letter) {
            self.taken = Some((letter, text));
        }
    }

    /// The text of the field with this letter.
    pub fn text(&self, letter: u8) -> Option<&'a [u8]>
        requires { IsLetter letter }
        ensures { (parts : List Part) → AreNoted parts self.now → option_copied result ≡ field letter parts }
    {
        self.texts[(letter - FIRST_LETTER) as usize]
    }

    /// The text that has the day: that of `%x`, or else of `%d`.
    pub fn day(&self) -> Option<&'a [u8]>
        ensures { (parts : List Part) → AreNoted parts self.now → option_copied result ≡ day_text parts }
    {
        self.text(b'x').or(self.text(b'd'))
    }

    /// The text that has what was asked for: that of `%r`, or else of `%U`.
    pub fn request(&self) -> Option<&'a [u8]>
        ensures { (parts : List Part) → AreNoted parts self.now → option_copied result ≡ request_text parts }
    {
        self.text(b'r').or(self.text(b'U'))
    }

    /// The first field with the time that the answer took.
    pub fn taken(&self) -> Option<(u8, &'a [u8])>
        ensures { (parts : List Part) → AreNoted parts self.now → option_map part_of result ≡ taken_part parts }
    {
        self.taken
    }

    /// Takes back the time that the answer took where it was noted after this one, which is that of the earlier leaves.
    pub fn keep_taken(&mut self, first: Option<(u8, &'a [u8])>)
        ensures { (before own : List Part) → AreNoted (before ++ own) self.old → option_map part_of first.entry ≡ taken_part before →
            AreNoted (before ++ read_parts true own) self.new }
    {
        self.taken = first;
    }
}

/// Whether the field has the time that the answer took.
pub(crate) fn is_taken_letter(letter: u8) -> bool
    ensures { result ≡ is_taken_letter letter }
{
    matches!(letter, b'D' | b'L' | b'T')
}
