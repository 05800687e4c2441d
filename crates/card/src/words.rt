// The fourteen words of a card, each with the least and the most of its figure.
ghost use Rattle.std.specs.Prelude.{◌≡◌, ◌<◌, IfSome};
ghost use Rattle.card.specs.Words.{place, within, ranged};

// A name as a card writes it, and the range of its figure.
#[derive(Clone, Copy)]
pub(crate) struct Word {
    name: [u8; 8],
    least: u64,
    most: u64,
}

// In the order in which a checked card holds their figures.
const WORDS: [Word; 14] = [
    Word {
        name: *b"AREA    ",
        least: 1,
        most: 5_000,
    },
    Word {
        name: *b"IMPV    ",
        least: 0,
        most: 1_048_576,
    },
    Word {
        name: *b"CEPSC   ",
        least: 0,
        most: 400_000,
    },
    Word {
        name: *b"UZSN    ",
        least: 50_000,
        most: 2_000_000,
    },
    Word {
        name: *b"LZSN    ",
        least: 2_000_000,
        most: 15_000_000,
    },
    Word {
        name: *b"INFILT  ",
        least: 1_000,
        most: 500_000,
    },
    Word {
        name: *b"INTFW   ",
        least: 100,
        most: 1_000,
    },
    Word {
        name: *b"LZETP   ",
        least: 104_858,
        most: 943_718,
    },
    Word {
        name: *b"DEEPFR  ",
        least: 0,
        most: 524_288,
    },
    Word {
        name: *b"AGWETP  ",
        least: 0,
        most: 209_715,
    },
    Word {
        name: *b"OVK     ",
        least: 1,
        most: 100_000,
    },
    Word {
        name: *b"IFWK    ",
        least: 1,
        most: 1_048_576,
    },
    Word {
        name: *b"GWK     ",
        least: 1,
        most: 1_048_576,
    },
    Word {
        name: *b"CHK     ",
        least: 1,
        most: 1_048_576,
    },
];

// The place of a name among the fourteen words.
#[tactic(auto, unfolding(crate::specs::Words::place))]
pub(crate) fn place_of(name: &[u8; 8]) -> Option<usize>
    ensures value { result ≡ place name.now }
    ensures below { IfSome result (λ k. k < 14) }
{
    WORDS.iter().position(|word| word.name == *name)
}

impl Word {
    // Whether a figure is within the word's range.
    fn allows(&self, v: u64) -> bool
        ensures { result ≡ within self.now v }
    {
        self.least <= v && v <= self.most
    }
}

// Whether a figure is within the range of the word at place k.
#[tactic(auto, unfolding(crate::specs::Words::ranged))]
pub(crate) fn in_range(k: usize, v: u64) -> bool
    requires { k < 14 }
    ensures { result ≡ ranged k v }
{
    WORDS[k].allows(v)
}
