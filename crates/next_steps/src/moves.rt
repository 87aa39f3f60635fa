//! The changes of the namespace.
ghost use Rattle.std.specs.Prelude.{◌≡◌, IfOk};
ghost use Rattle.next_steps.specs.Writers.{maker};

use next_ids::{Call, Client, DirId, FileId, Name, NoMemory, Node, Ts};

/// A change of the namespace by a client's call: its time, and the node that it made.
#[derive(Clone, Debug, Drop)]
pub struct Move {
    pub client: Client,
    pub call: Call,
    pub ts: Ts,
    pub made: Option<Node>,
}

/// What a step changed in the namespace.
#[derive(Clone, Debug, Drop)]
pub enum Moved {
    Move(Move),
    /// A file without a name went.
    Forget(FileId),
}

impl Moved {
    /// A copy.
    pub fn copy(&self) -> Result<Moved, NoMemory>
        ensures { IfOk result (λ copy. copy ≡ self.now) }
    {
        Ok(self.clone()?)
    }
}

/// The call that makes the node at the name: a create makes a file, and a mkdir a directory.
pub fn maker(dir: DirId, name: &Name, node: Node) -> Result<Call, NoMemory>
    ensures { IfOk result (λ call. call ≡ maker dir name.now node) }
{
    let name = name.copy()?;
    match node {
        Node::File(_) => Ok(Call::Create { dir, name }),
        Node::Dir(_) => Ok(Call::Mkdir { dir, name }),
    }
}
