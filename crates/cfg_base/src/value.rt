use crate::word_list::WordList;

/// What stands at a path: its marks, the order of its ordered children, and its words.
#[derive(Clone, Debug, Drop, PartialEq, Eq)]
pub struct Value {
    pub inactive: bool,
    pub protected: bool,
    pub order: WordList,
    pub words: WordList,
}
