ghost use Rattle.std.specs.Prelude.{◌≡◌, [], ◌∷◌, ℕ, List, Option, false, map};
ghost use Rattle.cfg_lex.specs.declared.token.Token.{Token};
ghost use Rattle.cfg_lex.specs.declared.fault.LexFault.{LexFault};
ghost use Rattle.cfg_lex.specs.Bytes.{goes_on};
ghost use Rattle.cfg_lex.specs.Lexeme.{BeginsWith, Lexeme};
ghost use Rattle.cfg_lex.specs.Printed.{IsPrintable, IsPrintedAs, printed_token, printed_word};
ghost use Rattle.cfg_lex.specs.Tokens.{HasAnswer, IsCut, IsLeftmostFault, IsTokens, tokens_at, word_in, words_of};

/// Each text has its tokens or its leftmost fault, not both, and one of them.
pub fn texts_are_read_in_one_way()
    ensures answered { (text : List ℕ) → HasAnswer text }
    ensures one_list { (text : List ℕ) (one two : List Token) → IsTokens text one → IsTokens text two → one ≡ two }
    ensures one_fault { (text : List ℕ) (one two : LexFault) → IsLeftmostFault text one → IsLeftmostFault text two → one ≡ two }
    ensures not_both { (text : List ℕ) (tokens : List Token) (fault : LexFault) → IsTokens text tokens → IsLeftmostFault text fault → ⊥ }
    ensures one_cut { (text : List ℕ) (one two : List Token) (fault other : Option LexFault) → IsCut text one fault → IsCut text two other
        → (one ≡ two) × (fault ≡ other) }
{}

/// The words of a text's tokens are those that its lexemes mean.
pub fn words_of_tokens_are_of_lexemes()
    ensures { (text : List ℕ) (lexemes : List Lexeme) → BeginsWith lexemes text [] → map (word_in text) (tokens_at 0 lexemes) ≡ words_of lexemes }
{}

/// What is printed of a word of printing bytes is read as one token of that word: alone, and as one lexeme
/// before what doesn't go on with a bare word.
pub fn printed_words_are_read_back()
    ensures one_token { (word : List ℕ) → IsPrintable word → IsTokens (printed_word word) (printed_token word ∷ []) }
    ensures same_word { (word : List ℕ) → IsPrintable word → word_in (printed_word word) (printed_token word) ≡ word }
    ensures in_text { (word rest : List ℕ) → IsPrintable word → goes_on rest ≡ false → (lexeme : Lexeme) × IsPrintedAs word rest lexeme }
{}
