// A depth-first walk over modules.
ghost use Rattle.std.specs.Prelude.{◌≡◌, ◌<◌, [], ◌∷◌, length, replicate, false, MatchOption, IfOk, OnOk};
ghost use Rattle.module_order.specs.declared.walk.Task.TheVariants.{Visit, Add};
ghost use Rattle.module_order.specs.Tasks.{number_of, visits, state, before, begun, after};

use scheme_data::{List, OutOfMemory, Stack};
use std::alloc::Global;

/// What is still to be done with a module.
#[derive(Drop)]
pub enum Task {
    /// It is visited.
    Visit(usize),
    /// It is added, now that its imports were visited.
    Add(usize),
}

/// A walk on its way. Its tasks stand on a stack, so that no chain of imports is too long.
#[derive(Drop)]
pub struct Walk {
    // whether each module is marked, by its number
    marks: Vec<bool>,
    tasks: Stack<Task>,
    order: List<usize>,
}

impl Walk {
    /// A walk over so many modules, from a module.
    pub fn new(alloc: Global, count: usize, root: usize) -> Result<Walk, OutOfMemory>
        ensures { IfOk result (λ w. state w ≡ record { marks = replicate count false; tasks = Visit root ∷ []; order = [] }) }
    {
        let mut tasks = Stack::new(alloc);
        tasks.push(Task::Visit(root))?;
        Ok(Walk {
            marks: vec![in alloc; false; count]?,
            tasks,
            order: List::new(alloc),
        })
    }

    /// Takes the next task.
    pub fn next(&mut self) -> Option<Task>
        ensures { MatchOption result ((self.old.tasks ≡ []) × (self.new ≡ self.old)) (λ task. state self.old ≡ before task (state self.new)) }
    {
        self.tasks.pop()
    }

    /// Does a task.
    pub fn follow(&mut self, imports: &[List<usize>], task: Task) -> Result<(), OutOfMemory>
        requires within { number_of task < length imports.now }
        requires long { length self.old.marks.items ≡ length imports.now }
        ensures { OnOk result (state self.new ≡ after imports.now task (state self.old)) }
    {
        match task {
            Task::Visit(n) => self.visit(imports, n),
            Task::Add(n) => self.order.push(n),
        }
    }

    fn visit(&mut self, imports: &[List<usize>], n: usize) -> Result<(), OutOfMemory>
        requires within { n < length imports.now }
        requires long { length self.old.marks.items ≡ length imports.now }
        ensures { OnOk result (state self.new ≡ after imports.now (Visit n) (state self.old)) }
    {
        if self.marks[n] {
            return Ok(());
        }
        self.begin(imports, n)
    }

    fn begin(&mut self, imports: &[List<usize>], n: usize) -> Result<(), OutOfMemory>
        requires within { n < length imports.now }
        requires long { length self.old.marks.items ≡ length imports.now }
        ensures { OnOk result (state self.new ≡ begun imports.now n (state self.old)) }
    {
        self.marks[n] = true;
        self.tasks.push(Task::Add(n))?;
        push_visits(&mut self.tasks, imports[n].as_slice())
    }

    /// The modules that were added.
    pub fn into_order(self) -> List<usize>
        ensures { result ≡ self.order }
    {
        self.order
    }
}

// Visits of these modules come first, in their order.
fn push_visits(tasks: &mut Stack<Task>, modules: &[usize]) -> Result<(), OutOfMemory>
    ensures { OnOk result (tasks.new ≡ visits modules.now tasks.old) }
{
    for i in (0..modules.len()).rev() {
        tasks.push(Task::Visit(modules[i]))?;
    }
    Ok(())
}
