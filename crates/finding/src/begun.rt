//! Keys that are begun: their first columns, and which column may stand next.

ghost use Rattle.std.specs.Prelude.{◌≡◌, suc, ◌-◌, ◌^◌, ◌<◌, [], ◌∷◌, ◌++◌, length, Some, nat_lt};
ghost use Rattle.opening.specs.Shapes.{units_of, factors_of};
ghost use Rattle.figures.specs.Counted.{columns_in};
ghost use Rattle.finding.specs.Walks.{none_open, is_all, Within, is_in_layer, after, next_in, closed_in};

use figures::counts::Counts;
use opening::Shape;

/// How many unit factors of each layer are open, always the first ones.
#[derive(Clone, Copy, Debug, PartialEq, Eq, Hash)]
pub struct Opened {
    pub whole: u8,
    pub sub: u8,
}

impl Opened {
    /// Whether every unit factor is open.
    pub fn is_all(self, shape: Shape) -> bool
        ensures { result ≡ is_all shape.w shape.s self }
    {
        self.whole == shape.w && self.sub == shape.s
    }
}

/// The first columns of a key, and what they open; at least one factor has no column yet.
#[derive(Clone, Copy)]
pub struct Begun {
    pub counts: Counts,
    pub opened: Opened,
    ghost few: { length (columns_in counts) < factors_of counts.shape },
    ghost within: { Within counts.shape.w counts.shape.s opened },
}

impl Begun {
    /// No column of the shape.
    pub fn new(shape: Shape) -> Begun
        ensures shape { result.counts.shape ≡ shape }
        ensures columns { columns_in result.counts ≡ [] }
        ensures opened { result.opened ≡ none_open }
    {
        Begun {
            counts: Counts::new(shape),
            opened: Opened { whole: 0, sub: 0 },
        }
    }

    /// How many factors have no column yet.
    pub fn left(&self) -> usize
        ensures { result ≡ factors_of self.now.counts.shape - length (columns_in self.now.counts) }
    {
        usize::from(self.counts.shape().factors()) - self.counts.columns().len()
    }

    /// How many unit factors are closed.
    fn closed(&self) -> u8
        ensures { result ≡ closed_in self.now.counts.shape self.now.opened }
    {
        let shape = self.counts.shape();
        shape.w - self.opened.whole + (shape.s - self.opened.sub)
    }

    /// Whether more unit factors are closed than factors are left.
    pub fn is_late(&self) -> bool
        ensures { result ≡ nat_lt (factors_of self.now.counts.shape - length (columns_in self.now.counts)) (closed_in self.now.counts.shape self.now.opened) }
    {
        self.left() < usize::from(self.closed())
    }

    /// Whether a word lies in the layer of the next factor.
    fn is_in_layer(&self, word: u8) -> bool
        ensures { result ≡ is_in_layer self.now.counts.shape.w self.now.counts.shape.n1 (length (columns_in self.now.counts)) word }
    {
        let shape = self.counts.shape();
        if self.counts.columns().len() < usize::from(shape.n1) {
            word != 0 && word < shape.plots()
        } else {
            shape.plots() <= word
        }
    }

    /// What is open after a column that is standard where this is open; none where it is not.
    fn after(&self, column: u8) -> Option<Opened>
        ensures { result ≡ after self.now.counts.shape.w self.now.counts.shape.s self.now.opened column }
    {
        let shape = self.counts.shape();
        let Opened { whole, sub } = self.opened;
        if column >> shape.w >= 1 << sub {
            let is_next = sub < shape.s && column == 1 << (shape.w + sub);
            return is_next.then_some(Opened {
                whole,
                sub: sub + 1,
            });
        }
        let low = column % (1 << shape.w);
        if low < 1 << whole {
            return Some(self.opened);
        }
        let is_next = whole < shape.w && low == 1 << whole;
        is_next.then_some(Opened {
            whole: whole + 1,
            sub,
        })
    }

    /// What is open with one more column; none where it may not stand next.
    pub fn next(&self, column: u8) -> Option<Opened>
        ensures { result ≡ next_in self.now.counts self.now.opened column }
    {
        if !self.is_in_layer(column) {
            return None;
        }
        let opened = self.after(column)?;
        // Gone through last, since most words fail a test before.
        if self.counts.columns().contains(&column) {
            return None;
        }
        Some(opened)
    }

    /// The same with one more column that may stand next, and what is then open.
    pub fn place(&self, column: u8, opened: Opened) -> Begun
        requires word { column < 2 ^ units_of self.now.counts.shape }
        requires next { next_in self.now.counts self.now.opened column ≡ Some opened }
        requires few { suc (length (columns_in self.now.counts)) < factors_of self.now.counts.shape }
        ensures shape { result.counts.shape ≡ self.now.counts.shape }
        ensures columns { columns_in result.counts ≡ columns_in self.now.counts ++ column ∷ [] }
        ensures opened { result.opened ≡ opened }
    {
        Begun {
            counts: self.counts.place(column),
            opened,
        }
    }
}
