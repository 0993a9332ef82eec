//! The layout of a key: the signs of its factors in each run, as text.

ghost use Rattle.std.specs.Prelude.{◌≡◌, ◌+◌, ◌*◌, ◌^◌, ◌<◌, ◌≤◌, [], ◌∷◌, ◌++◌, length};
ghost use Rattle.few.specs.Few.{items};
ghost use Rattle.theory.specs.Signs.{run_number};
ghost use Rattle.opening.specs.Shapes.{factors_of};
ghost use Rattle.key.specs.Layouts.{sign_code, place_text};
ghost use Rattle.key.specs.Questions.{signs_of, row_of, plot_of, layout_of, layout_answer, filled};

use super::Key;
use super::asking::sign_of;
use super::filling::fill;
use few::Few;
use opening::Shape;
use text::{add_bytes, add_number};
use theory::refusal::Refusal;
use theory::sign::Sign;

/// The length of the longest layout: 32 rows of 17 bytes.
const LONGEST: usize = 544;

/// A layout that is being written.
type Text = Few<u8, LONGEST>;

/// The character of a sign. It is no `From`, since neither type is of this crate.
fn mark(sign: Sign) -> u8
    ensures { result ≡ sign_code sign }
{
    match sign {
        Sign::Plus => b'+',
        Sign::Minus => b'-',
    }
}

/// Adds a whole plot and a subplot, each counted from 1 and followed by a space.
fn put_place(text: &mut Text, plot: u8, subplot: u8)
    requires few { (plot < 16) × (subplot < 16) }
    requires room { length (items text.old) + 6 ≤ LONGEST }
    ensures { items text.new ≡ items text.old ++ place_text plot subplot }
{
    add_number(text, usize::from(plot) + 1);
    add_bytes(text, b" ");
    add_number(text, usize::from(subplot) + 1);
    add_bytes(text, b" ");
}

/// The run of a subplot.
// Whole plot and subplot are no struct: each is the number of a loop of its own.
fn run_in(shape: Shape, plot: u8, subplot: u8) -> u8
    requires plot { plot < 2 ^ shape.w }
    requires subplot { subplot < 2 ^ shape.s }
    ensures { result ≡ run_number (shape.w ∷ []) plot subplot }
{
    plot + shape.plots() * subplot
}

impl Key {
    /// Adds the signs of the factors in a run.
    fn put_signs(&self, text: &mut Text, run: u8)
        requires { length (items text.old) + factors_of self.now.shape ≤ LONGEST }
        ensures { items text.new ≡ items text.old ++ signs_of self.now run }
    {
        let columns = self.columns();
        // Added at once: to ask for room for each sign would cost half a layout more.
        let mut signs = [0; 10];
        for (factor, column) in columns.iter().enumerate() {
            signs[factor] = mark(sign_of(*column, run));
        }
        add_bytes(text, &signs[..columns.len()]);
    }

    /// Adds the row of a subplot.
    fn put_row(&self, text: &mut Text, plot: u8, subplot: u8)
        requires plot { plot < 2 ^ self.now.shape.w }
        requires subplot { subplot < 2 ^ self.now.shape.s }
        requires room { length (items text.old) + 17 ≤ LONGEST }
        ensures { items text.new ≡ items text.old ++ row_of self.now plot subplot }
    {
        put_place(text, plot, subplot);
        self.put_signs(text, run_in(self.shape, plot, subplot));
        add_bytes(text, b"\n");
    }

    /// Adds the rows of a whole plot.
    fn put_plot(&self, text: &mut Text, plot: u8)
        requires plot { plot < 2 ^ self.now.shape.w }
        requires room { length (items text.old) + 17 * 2 ^ self.now.shape.s ≤ LONGEST }
        ensures { items text.new ≡ items text.old ++ plot_of self.now plot }
    {
        // Subplots, and whole plots below, are these numbers themselves.
        for subplot in 0..self.shape.subplots() {
            self.put_row(text, plot, subplot);
        }
    }

    /// Begins a text with the rows of every whole plot.
    fn put_plots(&self, text: &mut Text)
        requires { items text.old ≡ [] }
        ensures { items text.new ≡ layout_of self.now }
    {
        for plot in 0..self.shape.plots() {
            self.put_plot(text, plot);
        }
    }

    /// The layout: a row for each subplot of each whole plot, both counted from 1, with the signs of
    /// the factors in its run.
    pub fn rows(&self) -> Few<u8, LONGEST>
        ensures { items result ≡ layout_of self.now }
    {
        let mut text = Few::new(0);
        self.put_plots(&mut text);
        text
    }

    /// Writes the layout and tells how long it is.
    pub fn layout(&self, out: &mut [u8]) -> Result<usize, Refusal>
        ensures answer { result ≡ layout_answer self.now (length out.old) }
        ensures buffer { out.new ≡ filled result (layout_of self.now) out.old }
        ensures bound { length (layout_of self.now) ≤ 544 }
    {
        let mut text = Few::new(0);
        self.put_plots(&mut text);
        fill(out, text.as_slice())
    }
}
