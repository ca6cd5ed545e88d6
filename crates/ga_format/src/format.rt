ghost use Rattle.std.specs.Prelude.{◌≡◌};

use ga_base::FormatItem;
use std::marker::Model;

/// A log format. Contracts see the list of its items.
#[derive(Debug, Drop)]
pub struct Format {
    inner: Vec<FormatItem>,
}

impl Model for Format {
    ghost use Rattle.std.specs.Prelude.{List};
    ghost use Rattle.ga_base.specs.declared.formats.FormatItem.{FormatItem};
    ghost use Rattle.ga_format.specs.SoundFormats.{IsSound};

    ghost Value = { List FormatItem };

    ghost view = { λ f. f.inner.items };

    ghost invariant = { λ f. IsSound f.inner.items };
}

impl Format {
    ghost use Rattle.ga_format.specs.SoundFormats.{IsSound};

    /// The format of these items.
    pub(crate) fn new(inner: Vec<FormatItem>) -> Format
        requires { IsSound inner.items }
        ensures { result ≡ inner.items }
    {
        Format { inner }
    }

    /// Lends the items, in the order in which a line has to fit them.
    pub fn items(&self) -> &[FormatItem]
        ensures value { result.now ≡ self.now }
        // They give a host, a date and a request, end each field, and say nothing twice.
        ensures sound { IsSound self.now }
    {
        &self.inner
    }
}
