ghost use Rattle.std.specs.Prelude.{◌≡◌, ◌↔◌, ◌<◌, ◌≤◌, ◌^◌, ℕ, List, [], ◌++◌, length, Some, true};
ghost use Rattle.der_text.specs.declared.fault.DerFault.{DerFault};
ghost use Rattle.der_text.specs.Tree.{Node, primitive, constructed, Nodes, no_nodes, also, element, head_length, element_length, spelling, IsInForm, IsDer};
ghost use Rattle.der_text.specs.Parts.{content_with, parts_with, primitive_at, constructed_at, are_none};
ghost use Rattle.der_text.specs.Fault.{IsFirstFault};

/// No spelling of a tree is a prefix of another's: what follows it is nothing, or it is no spelling.
pub fn no_spelling_is_a_prefix()
    ensures trees { (tree other : Node) (rest : List ℕ) → IsInForm 32 tree → IsInForm 32 other →
        spelling tree ≡ spelling other ++ rest → tree ≡ other }
    ensures rests { (tree other : Node) (rest : List ℕ) → IsInForm 32 tree → IsInForm 32 other →
        spelling tree ≡ spelling other ++ rest → rest ≡ [] }
{}

/// What a tree spells is read again, to the same tree: its spelling spells it and no other tree, and has no fault.
pub fn what_is_spelled_is_read()
    ensures spelled { (tree : Node) → IsInForm 32 tree → IsDer (spelling tree) tree }
    ensures alone { (bytes : List ℕ) (tree other : Node) → IsDer bytes tree → IsDer bytes other → tree ≡ other }
    ensures faultless { (bytes : List ℕ) (tree : Node) (fault : DerFault) → IsDer bytes tree → ¬ IsFirstFault bytes fault }
{}

/// Bytes have one first fault at most.
pub fn one_first_fault()
    ensures { (bytes : List ℕ) (fault other : DerFault) →
        IsFirstFault bytes fault → IsFirstFault bytes other → fault ≡ other }
{}

/// Before a content stand its tag and at most five bytes of length.
pub fn a_head_is_short()
    ensures { (content : List ℕ) → head_length content ≤ 6 }
{}

/// Before a content of fewer than 65,536 bytes stand at most four, and before one of fewer than 256 at most three.
pub fn a_head_is_shorter()
    ensures four { (content : List ℕ) → length content < 2 ^ 16 → head_length content ≤ 4 }
    ensures three { (content : List ℕ) → length content < 2 ^ 8 → head_length content ≤ 3 }
{}

/// An element has the bytes of its head and those of its content.
pub fn elements_have_their_length()
    ensures { (tag : ℕ) (content : List ℕ) → length (element tag content) ≡ element_length (length content) }
{}

/// An element's spelling determines its tag and its content.
pub fn an_element_spells_one_content()
    ensures tags { (tag other : ℕ) (content others : List ℕ) → element tag content ≡ element other others → tag ≡ other }
    ensures contents { (tag other : ℕ) (content others : List ℕ) → length content < 2 ^ 32 → length others < 2 ^ 32 →
        element tag content ≡ element other others → content ≡ others }
{}

/// A part is read exactly where it stands: an element with the tag, one at the front, and whether none is left.
pub fn parts_are_read_as_they_stand()
    ensures content { (tag : ℕ) (tree : Node) (content : List ℕ) →
        (content_with tag tree ≡ Some content) ↔ (tree ≡ primitive tag content) }
    ensures parts { (tag : ℕ) (tree : Node) (parts : Nodes) →
        (parts_with tag tree ≡ Some parts) ↔ (tree ≡ constructed tag parts) }
    ensures primitive { (tag : ℕ) (nodes : Nodes) (content : List ℕ) (others : Nodes) →
        (primitive_at tag nodes ≡ Some (content, others)) ↔ (nodes ≡ also (primitive tag content) others) }
    ensures constructed { (tag : ℕ) (nodes parts others : Nodes) →
        (constructed_at tag nodes ≡ Some (parts, others)) ↔ (nodes ≡ also (constructed tag parts) others) }
    ensures none { (nodes : Nodes) → (are_none nodes ≡ true) ↔ (nodes ≡ no_nodes) }
{}
