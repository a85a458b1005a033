// Trees over the lines of a list, as numbers in reading order: 1 and a child count is all-of, 2 and a child count any-of,
// 3 and a line number a line. They are read, their choices counted, and the first refusal of them found.

#![tactic(auto)]

ghost use Rattle.std.specs.Prelude.{◌≡◌, ◌+◌, ◌<◌, length, Ok};
ghost use Rattle.tree_reading.specs.declared.Kind.TheVariants.{AllOf, AnyOf};
ghost use Rattle.tree_reading.specs.Tree.{code_of};
ghost use Rattle.tree_reading.specs.Refusal.{tree_number, tree_place};
ghost use Rattle.tree_reading.specs.Reading as read;

use lines::{Numbered, numbered_at};

// A node asks for all of its children, or for any one of them. The number of its kind is its first one.
#[derive(Clone, Copy)]
pub enum Kind {
    AllOf = 1,
    AnyOf = 2,
}

// The first number of a line.
const LINE: u32 = 3;
// The greatest depth.
pub const MAX_DEPTH: usize = 8;
// The most choices of a node.
pub const MAX_CHOICES: usize = 256;

// What is wrong with a tree, each with the index of the number at fault; or that it has no choice with this number.
#[derive(Clone, Copy)]
pub enum TreeRefusal {
    TooManyChoices(usize),
    Malformed(usize),
    TooDeep(usize),
    NoSuchChoice,
}

// What the first two numbers of a node say: a line, or a number of children.
#[derive(Clone, Copy)]
pub enum Head {
    Line,
    Children(u32),
}

// A node that was read: where the next one begins, its choices (one above the most for any higher number), and the first
// node in it with more than the most, or the length of the numbers if there is none.
#[derive(Clone, Copy)]
pub struct Node {
    pub end: usize,
    pub choices: usize,
    pub over: usize,
}

// The number and the place of each refusal; 43 has none, which is 0.
pub fn tree_number_and_place(r: TreeRefusal) -> Numbered
    ensures { (result.number ≡ tree_number r) × (result.place ≡ tree_place r) }
{
    match r {
        TreeRefusal::TooManyChoices(k) => numbered_at(40, k),
        TreeRefusal::Malformed(k) => numbered_at(41, k),
        TreeRefusal::TooDeep(k) => numbered_at(42, k),
        TreeRefusal::NoSuchChoice => numbered_at(43, 0),
    }
}

// A number as an index.
pub fn as_index(x: u32) -> usize
    ensures { result ≡ x }
{
    x as usize
}

// A number of choices, or one above the most for any higher one.
fn capped(choices: usize) -> usize
    ensures { result ≡ read.cap choices }
{
    choices.min(MAX_CHOICES + 1)
}

impl Node {
    // A line, or a node before its first child: what stands behind its first two numbers, with so many choices.
    fn begun(numbers: &[u32], at: usize, choices: usize) -> Node
        requires { at + 1 < length numbers.now }
        ensures { result ≡ read.begun numbers.now at choices }
    {
        Node {
            end: at + 2,
            choices,
            over: numbers.len(),
        }
    }

    // A node of this kind with one more child.
    fn with_child(self, kind: Kind, child: Node) -> Node
        ensures { result ≡ read.with_child kind self child }
    {
        let before = capped(self.choices);
        let more = capped(child.choices);
        let choices = match kind {
            Kind::AllOf => before * more,
            Kind::AnyOf => before + more,
        };
        Node {
            end: child.end,
            choices: capped(choices),
            over: self.over.min(child.over),
        }
    }

    // The node at `at`, after its last child: it may itself have too many choices.
    fn finished(mut self, at: usize) -> Node
        ensures { result ≡ read.finished at self }
    {
        if self.choices > MAX_CHOICES {
            self.over = at.min(self.over);
        }
        self
    }
}

// A line's number, which is in the list, or 41 at it.
#[tactic(auto, unfolding(crate::specs::Reading::line_head_lem))]
fn line_head(numbers: &[u32], lines: usize, at: usize) -> Result<Head, TreeRefusal>
    requires { at < length numbers.now }
    ensures { result ≡ read.line_head_lem numbers.now lines at }
{
    if at + 1 >= numbers.len() {
        return Err(TreeRefusal::Malformed(numbers.len()));
    }
    if as_index(numbers[at + 1]) >= lines {
        return Err(TreeRefusal::Malformed(at + 1));
    }
    Ok(Head::Line)
}

// A number of children, any at all.
#[tactic(auto, unfolding(crate::specs::Reading::children_head_lem))]
fn children_head(numbers: &[u32], at: usize) -> Result<Head, TreeRefusal>
    requires { at < length numbers.now }
    ensures { result ≡ read.children_head_lem numbers.now at }
{
    if at + 1 >= numbers.len() {
        return Err(TreeRefusal::Malformed(numbers.len()));
    }
    Ok(Head::Children(numbers[at + 1]))
}

// What stands at `at`, where a line or a node of this kind may stand, with `depth` levels left: 41 at a cut, 42, 41 for a
// kind that may not stand there, then the second number.
#[tactic(auto, unfolding(crate::specs::Reading::head_of))]
pub fn head_at(
    numbers: &[u32],
    lines: usize,
    depth: usize,
    kind: Kind,
    at: usize,
) -> Result<Head, TreeRefusal>
    ensures { result ≡ read.head_of numbers.now lines depth (code_of kind) at }
{
    if at >= numbers.len() {
        return Err(TreeRefusal::Malformed(numbers.len()));
    }
    if depth == 0 {
        return Err(TreeRefusal::TooDeep(at));
    }
    if numbers[at] == LINE {
        return line_head(numbers, lines, at);
    }
    if numbers[at] == kind as u32 {
        return children_head(numbers, at);
    }
    Err(TreeRefusal::Malformed(at))
}

// A line or an all-of, which holds any-ofs one level down: two functions that call each other, the form that was asked for.
#[cycle(read_all_of_read_any_of)]
pub fn read_all_of(
    numbers: &[u32],
    lines: usize,
    depth: usize,
    at: usize,
) -> Result<Node, TreeRefusal>
    ensures { result ≡ read.node_of numbers.now lines depth AllOf at }
{
    match head_at(numbers, lines, depth, Kind::AllOf, at)? {
        Head::Line => Ok(Node::begun(numbers, at, 1)),
        Head::Children(count) => {
            let mut node = Node::begun(numbers, at, 1);
            for _ in 0..count {
                let child = read_any_of(numbers, lines, depth - 1, node.end)?;
                node = node.with_child(Kind::AllOf, child);
            }
            Ok(node.finished(at))
        }
    }
}

// A line or an any-of, which holds all-ofs one level down.
#[cycle(read_all_of_read_any_of)]
pub fn read_any_of(
    numbers: &[u32],
    lines: usize,
    depth: usize,
    at: usize,
) -> Result<Node, TreeRefusal>
    ensures { result ≡ read.node_of numbers.now lines depth AnyOf at }
{
    match head_at(numbers, lines, depth, Kind::AnyOf, at)? {
        Head::Line => Ok(Node::begun(numbers, at, 1)),
        Head::Children(count) => {
            let mut node = Node::begun(numbers, at, 0);
            for _ in 0..count {
                let child = read_all_of(numbers, lines, depth - 1, node.end)?;
                node = node.with_child(Kind::AnyOf, child);
            }
            Ok(node.finished(at))
        }
    }
}

// Whether a line stands where the root should.
#[tactic(auto, unfolding(crate::specs::Reading::root_is_line_lem))]
fn root_is_line(numbers: &[u32]) -> bool
    ensures { result ≡ read.root_is_line_lem numbers.now }
{
    !numbers.is_empty() && numbers[0] == LINE
}

// 41 at the first number left over.
fn whole_tree(numbers: &[u32], node: Node) -> Result<Node, TreeRefusal>
    ensures { result ≡ read.whole_tree_lem numbers.now (Ok node) }
{
    if node.end < numbers.len() {
        return Err(TreeRefusal::Malformed(node.end));
    }
    Ok(node)
}

// 40 at the first node with more than the most choices.
fn few_choices(numbers: &[u32], node: Node) -> Result<Node, TreeRefusal>
    ensures { result ≡ read.few_choices_lem numbers.now (Ok node) }
{
    if node.over < numbers.len() {
        return Err(TreeRefusal::TooManyChoices(node.over));
    }
    Ok(node)
}

// The whole tree, which is an all-of and no line: 41 and 42.
#[tactic(auto, unfolding(crate::specs::Reading::tree_of))]
pub fn read_tree(numbers: &[u32], lines: usize) -> Result<Node, TreeRefusal>
    ensures { result ≡ read.tree_of numbers.now lines }
{
    if root_is_line(numbers) {
        return Err(TreeRefusal::Malformed(0));
    }
    let root = read_all_of(numbers, lines, MAX_DEPTH, 0)?;
    whole_tree(numbers, root)
}

// All refusals of a tree, in their order: 41 and 42, then 40.
#[tactic(auto, unfolding(crate::specs::Reading::valid_tree_lem))]
pub fn valid_tree(numbers: &[u32], lines: usize) -> Result<Node, TreeRefusal>
    ensures { result ≡ read.valid_tree_lem numbers.now lines }
{
    let root = read_tree(numbers, lines)?;
    few_choices(numbers, root)
}
