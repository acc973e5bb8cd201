//! Walks over a rule of many places: whether it is open by its parts, and on which of these it leans.

use rewrites::{Node, Rewrite};

fn is_this(rewrite: &Rewrite) -> bool {
    match rewrite {
        Rewrite::This => true,
        _ => false,
    }
}

/// Whether a rule gives each user who is stored, at once.
pub(crate) fn gives_stored(rule: &Rewrite) -> bool {
    match rule {
        Rewrite::Union(children) => children.iter().any(|child| is_this(child)),
        rule => is_this(rule),
    }
}

#[cycle(exclusions)]
fn some_has_exclusions(nodes: &Vec<Node>) -> bool {
    for node in nodes {
        if has_exclusions(node) {
            return true;
        }
    }
    false
}

#[cycle(exclusions)]
pub(crate) fn has_exclusions(node: &Node) -> bool {
    match node {
        Node::Part(_) => false,
        Node::Union(nodes) | Node::Inter(nodes) => some_has_exclusions(nodes),
        Node::Minus(_, _) => true,
    }
}

/// As which a part opened, counted from 1, or `None` where it is shut.
fn opening(open: &[usize], part: usize) -> Option<usize> {
    match open.get(part).copied() {
        Some(0) | None => None,
        Some(opening) => Some(opening),
    }
}

/// The first of the nodes that is open, or that is shut.
#[cycle(opens)]
fn first_of(nodes: &Vec<Node>, is_open: bool, open: &[usize]) -> Option<usize> {
    for k in 0..nodes.len() {
        if opens(&nodes[k], open) == is_open {
            return Some(k);
        }
    }
    None
}

/// Whether a node of a rule is open.
#[cycle(opens)]
pub(crate) fn opens(node: &Node, open: &[usize]) -> bool {
    match node {
        Node::Part(part) => opening(open, *part).is_some(),
        Node::Union(nodes) => first_of(nodes, true, open).is_some(),
        Node::Inter(nodes) => first_of(nodes, false, open).is_none(),
        Node::Minus(base, subtract) => opens(base, open) && !opens(subtract, open),
    }
}

/// With which part a node opened, or `None` where it is shut.
#[cycle(opened)]
fn opened_with(node: &Node, open: &[usize]) -> Option<usize> {
    match node {
        Node::Part(part) => opening(open, *part),
        Node::Union(nodes) => {
            let (_, opening) = first_opened(nodes, open)?;
            Some(opening)
        }
        Node::Inter(nodes) => {
            let mut last = 0;
            for node in nodes {
                last = opened_with(node, open)?.max(last);
            }
            Some(last)
        }
        Node::Minus(base, subtract) => {
            if opens(subtract, open) {
                None
            } else {
                opened_with(base, open)
            }
        }
    }
}

/// The node that opened first, and with which part.
#[cycle(opened)]
fn first_opened(nodes: &Vec<Node>, open: &[usize]) -> Option<(usize, usize)> {
    let mut first = None;
    for k in 0..nodes.len() {
        if let Some(opening) = opened_with(&nodes[k], open) {
            first = match first {
                Some((_, before)) if before <= opening => first,
                _ => Some((k, opening)),
            };
        }
    }
    first
}

/// Whether one of the nodes is a part that is shut and is leaned on already.
fn has_kept(nodes: &Vec<Node>, open: &[usize], kept: &[bool]) -> bool {
    for node in nodes {
        if let Node::Part(part) = node {
            if kept.get(*part).copied() == Some(true) && opening(open, *part).is_none() {
                return true;
            }
        }
    }
    false
}

/// One node that is shut is enough: a part that is leaned on already, and else the first.
#[cycle(lean)]
fn lean_on_shut(nodes: &Vec<Node>, open: &[usize], kept: &mut [bool]) {
    if has_kept(nodes, open, kept) {
        return;
    }
    if let Some(first) = first_of(nodes, false, open) {
        if first < nodes.len() {
            lean(&nodes[first], false, open, kept);
        }
    }
}

/// One node that is open is enough: the one that opened first.
#[cycle(lean)]
fn lean_on_open(nodes: &Vec<Node>, open: &[usize], kept: &mut [bool]) {
    if let Some((first, _)) = first_opened(nodes, open) {
        if first < nodes.len() {
            lean(&nodes[first], true, open, kept);
        }
    }
}

#[cycle(lean)]
fn lean_on_each(nodes: &Vec<Node>, is_open: bool, open: &[usize], kept: &mut [bool]) {
    for node in nodes {
        lean(node, is_open, open, kept);
    }
}

/// Keeps the parts on which a node leans that is open, or shut.
#[cycle(lean)]
pub(crate) fn lean(node: &Node, is_open: bool, open: &[usize], kept: &mut [bool]) {
    match node {
        Node::Part(part) => {
            if let Some(flag) = kept.get_mut(*part) {
                *flag = true;
            }
        }
        Node::Union(nodes) => {
            if is_open {
                lean_on_open(nodes, open, kept);
            } else {
                lean_on_each(nodes, is_open, open, kept);
            }
        }
        Node::Inter(nodes) => {
            if is_open {
                lean_on_each(nodes, is_open, open, kept);
            } else {
                lean_on_shut(nodes, open, kept);
            }
        }
        Node::Minus(base, subtract) => {
            if is_open {
                lean(base, true, open, kept);
                lean(subtract, false, open, kept);
            } else if opens(subtract, open) {
                lean(subtract, true, open, kept);
            } else {
                lean(base, false, open, kept);
            }
        }
    }
}
