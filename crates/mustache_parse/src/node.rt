/// A node of a template's tree.
///
/// The texts say where the template's own lines begin: at the front of a text that `leads`, after each
/// newline within a text, and at the end of a text that `trails` and ends a line. A text without bytes that
/// does both is the beginning of a line before a tag.
#[derive(Debug, Drop)]
pub enum Node {
    /// A text that is printed as it is, except for the margin before each of its lines. It `trails` if a tag
    /// follows on its last line.
    Text {
        text: String,
        leads: bool,
        trails: bool,
    },
    /// The name of a value that is printed escaped.
    Variable(String),
    /// The name of a value that is printed as it is.
    Raw(String),
    /// A block that is printed for a value that is true, once for each item of a list.
    Section {
        name: String,
        block: Vec<Node>,
    },
    /// A block that is printed for a value that is false or empty.
    Inverted {
        name: String,
        block: Vec<Node>,
    },
    /// Another template. If its tag is standalone, it has the blanks before the tag, which lengthen the
    /// margin. If not, it has no margin.
    Partial {
        name: String,
        own: Option<String>,
    },
}
