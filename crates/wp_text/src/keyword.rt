ghost use Rattle.std.specs.Prelude.{◌≡◌};
ghost use Rattle.wp_text.specs.Reading.{bare_text, keyword_named, keyword_text, named_text};

/// The first word of a statement that takes a name.
#[derive(Clone, Copy)]
pub(crate) enum Named {
    Client,
    Snap,
    Free,
    Begin,
    Take,
    Tell,
    Hear,
}

/// The first word of a command that takes no word.
#[derive(Clone, Copy)]
pub(crate) enum Bare {
    Pin,
    Prepare,
    Commit,
    Rollback,
    Leave,
    Flush,
    Compact,
    Renew,
}

/// The first word of a statement.
#[derive(Clone, Copy)]
pub(crate) enum Keyword {
    Named(Named),
    Bare(Bare),
    Put,
    Del,
    Get,
    Scan,
    Lock,
    Settle,
}

const KEYWORDS: [Keyword; 21] = [
    Keyword::Named(Named::Client),
    Keyword::Put,
    Keyword::Del,
    Keyword::Get,
    Keyword::Scan,
    Keyword::Named(Named::Snap),
    Keyword::Named(Named::Free),
    Keyword::Named(Named::Begin),
    Keyword::Bare(Bare::Pin),
    Keyword::Lock,
    Keyword::Bare(Bare::Prepare),
    Keyword::Bare(Bare::Commit),
    Keyword::Bare(Bare::Rollback),
    Keyword::Bare(Bare::Leave),
    Keyword::Named(Named::Take),
    Keyword::Settle,
    Keyword::Bare(Bare::Flush),
    Keyword::Bare(Bare::Compact),
    Keyword::Bare(Bare::Renew),
    Keyword::Named(Named::Tell),
    Keyword::Named(Named::Hear),
];

impl Named {
    fn text(self) -> &'static [u8]
        ensures { result.now ≡ named_text self }
    {
        match self {
            Named::Client => b"client",
            Named::Snap => b"snap",
            Named::Free => b"free",
            Named::Begin => b"begin",
            Named::Take => b"take",
            Named::Tell => b"tell",
            Named::Hear => b"hear",
        }
    }
}

impl Bare {
    fn text(self) -> &'static [u8]
        ensures { result.now ≡ bare_text self }
    {
        match self {
            Bare::Pin => b"pin",
            Bare::Prepare => b"prepare",
            Bare::Commit => b"commit",
            Bare::Rollback => b"rollback",
            Bare::Leave => b"leave",
            Bare::Flush => b"flush",
            Bare::Compact => b"compact",
            Bare::Renew => b"renew",
        }
    }
}

impl Keyword {
    fn text(self) -> &'static [u8]
        ensures { result.now ≡ keyword_text self }
    {
        match self {
            Keyword::Named(named) => named.text(),
            Keyword::Bare(bare) => bare.text(),
            Keyword::Put => b"put",
            Keyword::Del => b"del",
            Keyword::Get => b"get",
            Keyword::Scan => b"scan",
            Keyword::Lock => b"lock",
            Keyword::Settle => b"settle",
        }
    }

    /// The keyword that the word is.
    #[tactic(auto, unfolding(crate::specs::Reading::keyword_named))]
    pub fn named(word: &[u8]) -> Option<Keyword>
        ensures { result ≡ keyword_named word.now }
    {
        KEYWORDS
            .iter()
            .copied()
            .find(|keyword| keyword.text() == word)
    }
}
