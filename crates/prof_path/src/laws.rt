//! The laws of rewriting, step by step. These functions do nothing: their contracts are the laws.
ghost use Rattle.prof_path.specs.ByPlace.{DirectRecursionByPlace};
ghost use Rattle.prof_path.specs.Stepwise.{NamesStep, AlongStep, CalledStep, InsideStep, EmptyStays, OneMoreTransform, MergeFunctionStep, MergeCallNodeStep, FocusSubtreeStep, InvertedFocusStep, DropFunctionStep, FocusFunctionStep, FocusCategoryStep, CollapseResourceStep, CollapseDirectRecursionStep, CollapseRecursionStep, CollapseFunctionSubtreeStep, FilterSamplesStep};

/// What the states of a path become with one more step.
pub fn state_step()
    ensures names { NamesStep }
    ensures along { AlongStep }
    ensures called { CalledStep }
    ensures inside { InsideStep }
{}

/// What the kinds that look for a function or a category make of a path with one more step.
pub fn function_step()
    ensures merge_function { MergeFunctionStep }
    ensures drop_function { DropFunctionStep }
    ensures focus_function { FocusFunctionStep }
    ensures focus_category { FocusCategoryStep }
    ensures collapse_recursion { CollapseRecursionStep }
    ensures collapse_function_subtree { CollapseFunctionSubtreeStep }
    ensures filter_samples { FilterSamplesStep }
{}

/// What the kinds that look at the step before make of a path with one more step.
pub fn collapse_step()
    ensures resource { CollapseResourceStep }
    ensures direct_recursion { CollapseDirectRecursionStep }
{}

/// What the collapse of direct recursion leaves, place by place.
pub fn direct_recursion_by_place()
    ensures { DirectRecursionByPlace }
{}

/// What the kinds that look for a call node make of a path with one more step.
pub fn call_node_step()
    ensures merge { MergeCallNodeStep }
    ensures focus { FocusSubtreeStep }
    ensures inverted { InvertedFocusStep }
{}

/// The empty path stays, and a list of transforms acts one after another.
pub fn rewrite_all_steps()
    ensures empty { EmptyStays }
    ensures one_more { OneMoreTransform }
{}
