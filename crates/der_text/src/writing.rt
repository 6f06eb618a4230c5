ghost use Rattle.std.specs.Prelude.{◌≡◌, ◌≤◌, ◌^◌, ◌++◌, length, take, OnOk, OnErr};
ghost use Rattle.der_text.specs.Tree.{content_of, spelling};
ghost use Rattle.der_text.specs.View.{node, nodes};

use crate::element::{head_len, write_head, write_primitive};
use crate::tree::Tree;
use gate_base::NoMemory;

/// The length of the content of the outermost element.
fn content_len(tree: &Tree<'_>) -> usize
    requires { length (content_of (node tree.now)) ≤ 2 ^ 31 }
    ensures { result ≡ length (content_of (node tree.now)) }
{
    match tree {
        Tree::Prim { content, .. } => content.len(),
        Tree::Cons { parts, .. } => {
            let mut sum = 0;
            for part in parts {
                let len = content_len(part);
                sum += head_len(len) + len;
            }
            sum
        }
    }
}

/// Appends an element, or a part of it where memory runs out.
fn write_element(tree: &Tree<'_>, out: &mut Vec<u8>) -> Result<(), NoMemory>
    requires { length (spelling (node tree.now)) ≤ 2 ^ 31 }
    ensures ok { OnOk result (out.new.items ≡ out.old.items ++ spelling (node tree.now)) }
    ensures kept { take (length out.old.items) out.new.items ≡ out.old.items }
{
    match tree {
        Tree::Prim { tag, content } => {
            write_primitive(*tag, content, out)?;
        }
        Tree::Cons { tag, parts } => {
            write_head(*tag, content_len(tree), out)?;
            for part in parts {
                write_element(part, out)?;
            }
        }
    }
    Ok(())
}

/// Appends the spelling of the tree.
pub fn write_tree(tree: &Tree<'_>, out: &mut Vec<u8>) -> Result<(), NoMemory>
    requires size { length (spelling (node tree.now)) ≤ 2 ^ 31 }
    ensures ok { OnOk result (out.new.items ≡ out.old.items ++ spelling (node tree.now)) }
    ensures err { OnErr result (out.new.items ≡ out.old.items) }
{
    let before = out.len();
    let written = write_element(tree, out);
    if written.is_err() {
        out.truncate(before);
    }
    written
}
