ghost use Rattle.std.specs.Prelude.{◌≡◌, ◌≢◌, ◌↔◌, ℕ, List, Some};
ghost use Rattle.der_text.specs.Tree.{Node, Nodes};
ghost use Rattle.csr10.specs.declared.fault.CsrFault.{CsrFault};
ghost use Rattle.csr10.specs.declared.fault.CsrFault.TheVariants as csr_faults;
ghost use Rattle.csr10.specs.Form.{attribute_tree, IsExtensionTree, IsRequestTree};
ghost use Rattle.csr10.specs.Shape as shape;
ghost use Rattle.csr10.specs.Csr.{Fields, IsCsr, IsFirstFault};

use der_text::{one_first_fault, parts_are_read_as_they_stand, what_is_spelled_is_read};
use public_key::one_kind;

/// Bytes are a request with one set of fields at most, and where they are one they have no fault.
pub fn one_reading()
    ensures fields { (bytes : List ℕ) (fields other : Fields) → IsCsr bytes fields → IsCsr bytes other → fields ≡ other }
    ensures faultless { (bytes : List ℕ) (fields : Fields) (fault : CsrFault) →
        IsCsr bytes fields → IsFirstFault bytes fault → fault ≡ csr_faults.NoMemory }
    ensures fault { (bytes : List ℕ) (fault other : CsrFault) → fault ≢ csr_faults.NoMemory → other ≢ csr_faults.NoMemory →
        IsFirstFault bytes fault → IsFirstFault bytes other → fault ≡ other }
{
    what_is_spelled_is_read();
    one_first_fault();
    one_kind();
}

/// What is read of a tree are the parts of the form that it has: of a request, an attribute and an extension.
pub fn forms_are_read()
    ensures requests { (tree : Node) (version : List ℕ) (attributes : Nodes) →
        (shape.request_of tree ≡ Some (version, attributes)) ↔ IsRequestTree tree version attributes }
    ensures attributes { (tree : Node) (type : List ℕ) (values : Nodes) →
        (shape.attribute_of tree ≡ Some (type, values)) ↔ (tree ≡ attribute_tree type values) }
    ensures extensions { (tree : Node) (identifier value : List ℕ) →
        (shape.extension_of tree ≡ Some (identifier, value)) ↔ IsExtensionTree tree identifier value }
{
    parts_are_read_as_they_stand();
}
