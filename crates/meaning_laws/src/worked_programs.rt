//! Worked programs of Fortran 90: what they write, how they end and how many steps they take, by computation from the
//! definitions. The expected values are those of another program's runs of the texts that stand above the trees.
//!
//! Proved (laws by computation): 42 programs of Fortran 90, each with what it writes, how it ends and how many steps it
//! takes: sections with strides of either sign and of zero trips, both sides of one array, elements named twice
//! (`worked_sections`); what is performed under a mask and what anyhow (`worked_masks`); SPREAD twice, TRANSPOSE,
//! RESHAPE with too few, SUM, MAXVAL and MINVAL of nothing, a partial sum past 128 bits (`worked_array_functions`);
//! constructors with two loops (`worked_constructors`); ALLOCATE and DEALLOCATE (`worked_allocations`); two faults in
//! one statement, of which the one of the earlier stage ends the run (`worked_stages`). The expected values are those
//! of another program's runs of the texts that stand above the trees.
ghost use Rattle.std.specs.Prelude.{[], ◌∷◌};
ghost use Rattle.tree.specs.declared.ops.Fault.TheVariants.{Allocated, Bounds, Overflow, Shape, ZeroDivide, ZeroStep};
ghost use Rattle.meaning.specs.declared.End.TheVariants.{Done, Fault};
ghost use Rattle.meaning_laws.specs.worked_programs.Words.{lines};
ghost use Rattle.meaning_laws.specs.worked_programs.Comes.{Comes};
ghost use Rattle.meaning_laws.specs.worked_programs.Sections as sections;
ghost use Rattle.meaning_laws.specs.worked_programs.Masks as masks;
ghost use Rattle.meaning_laws.specs.worked_programs.ArrayFunctions as array_functions;
ghost use Rattle.meaning_laws.specs.worked_programs.Constructors as constructors;
ghost use Rattle.meaning_laws.specs.worked_programs.Allocations as allocations;
ghost use Rattle.meaning_laws.specs.worked_programs.Stages as stages;

/// What sections select and store: strides of either sign, nothing at all, both sides of one array.
pub fn worked_sections()
    ensures overlap_to_the_right { Comes sections.overlap_to_the_right [] (lines (" 1 1 2 3 4" ∷ [])) Done 12 }
    ensures overlap_to_the_left { Comes sections.overlap_to_the_left [] (lines (" 3 5 7 9 5" ∷ [])) Done 12 }
    ensures reversed_in_place { Comes sections.reversed_in_place [] (lines (" 5 4 3 2 1 1 4 5 2" ∷ [])) Done 13 }
    ensures strides_on_both_sides { Comes sections.strides_on_both_sides [] (lines
        (" 1 50 5 20 2 50 5 10 3" ∷ [])) Done 20 }
    ensures no_elements { Comes sections.no_elements [] (lines (" 7 7 7" ∷ "" ∷ [])) Done 12 }
    ensures rows_and_columns { Comes sections.rows_and_columns [] (lines
        (" 1 5 103 103 5 1" ∷ " 1 103 5 5 103 1" ∷ [])) Done 16 }
    ensures element_named_twice { Comes sections.element_named_twice [] (lines (" 41 0 21 0" ∷ [])) Done 14 }
{}

/// WHERE: what is performed where the mask is true, and what is performed anyhow.
pub fn worked_masks()
    ensures guarded_division { Comes masks.guarded_division (lines ("4 0 -5 0" ∷ [])) (lines
        (" 25 1 -20 1" ∷ " 25 33 -20 33" ∷ [])) Done 23 }
    ensures scalars_under_a_false_mask { Comes masks.scalars_under_a_false_mask [] (lines (" 0 0 0" ∷ [])) Done 2 }
    ensures scalars_under_a_true_mask { Comes masks.scalars_under_a_true_mask [] [] (Fault ZeroDivide 2) 1 }
    ensures subscript_under_a_false_mask { Comes masks.subscript_under_a_false_mask [] [] (Fault ZeroDivide 2) 1 }
    ensures sum_under_a_false_mask { Comes masks.sum_under_a_false_mask [] [] (Fault ZeroDivide 2) 1 }
    ensures mask_is_known_first { Comes masks.mask_is_known_first [] (lines (" 1 1 0 0" ∷ [])) Done 8 }
{}

/// SPREAD, TRANSPOSE, RESHAPE, and the reductions.
pub fn worked_array_functions()
    ensures spread_twice { Comes array_functions.spread_twice [] (lines
        (" 1 1 2 2 1 1 2 2 1 1 2 2" ∷ " 1 1 1 1 1 1 2 2 2 2 2 2" ∷ [])) Done 5 }
    ensures spread_beside_an_array { Comes array_functions.spread_beside_an_array [] (lines
        (" 11 21 12 22 13 23" ∷ [])) Done 15 }
    ensures spread_to_nothing { Comes array_functions.spread_to_nothing [] (lines (" 0 8" ∷ [])) Done 1 }
    ensures transposed { Comes array_functions.transposed [] (lines
        (" 2 6 10 4 8 12" ∷ " 1 2 3 4 5 6" ∷ [])) Done 16 }
    ensures reshaped_with_too_few { Comes array_functions.reshaped_with_too_few [] (lines (" 0 0 0" ∷ []))
        (Fault Shape 3) 2 }
    ensures reductions_of_nothing { Comes array_functions.reductions_of_nothing [] (lines
        (" 0 -2147483648 2147483647" ∷ [])) Done 1 }
    ensures partial_sum_past_128_bits { Comes array_functions.partial_sum_past_128_bits [] (lines (" 0" ∷ []))
        (Fault Overflow 2) 2 }
{}

/// Constructors with loops, of which the first one is the innermost.
pub fn worked_constructors()
    ensures two_loops { Comes constructors.two_loops [] (lines (" 11 12 13 22 23 33" ∷ " 7 0" ∷ [])) Done 4 }
    ensures inner_hides_outer { Comes constructors.inner_hides_outer [] (lines (" 1 1 2 1 2 3" ∷ [])) Done 1 }
    ensures loop_without_turns { Comes constructors.loop_without_turns [] (lines (" 0" ∷ [])) (Fault ZeroDivide 3) 2 }
{}

/// ALLOCATE and DEALLOCATE.
pub fn worked_allocations()
    ensures allocated_twice { Comes allocations.allocated_twice [] (lines (" 4 4" ∷ [])) (Fault Allocated 5) 6 }
    ensures allocated_again { Comes allocations.allocated_again [] (lines (" 0 5" ∷ [])) Done 9 }
    ensures extents_come_first { Comes allocations.extents_come_first [] [] (Fault ZeroDivide 4) 2 }
    ensures negative_extent { Comes allocations.negative_extent [] (lines (" 0" ∷ [])) (Fault Bounds 4) 3 }
    ensures not_allocated { Comes allocations.not_allocated [] [] (Fault ZeroDivide 3) 1 }
    ensures used_before_allocate { Comes allocations.used_before_allocate [] [] (Fault Allocated 2) 1 }
    ensures deallocated_twice { Comes allocations.deallocated_twice [] [] (Fault Allocated 4) 3 }
{}

/// Two faults in one statement: the one of the earlier stage ends the run.
pub fn worked_stages()
    ensures mask_before_left_side { Comes stages.mask_before_left_side [] [] (Fault ZeroStep 2) 1 }
    ensures left_side_before_right_side { Comes stages.left_side_before_right_side [] [] (Fault Bounds 2) 1 }
    ensures scalar_right_side_before_left_side { Comes stages.scalar_right_side_before_left_side [] []
        (Fault ZeroDivide 2) 1 }
    ensures step_before_shape { Comes stages.step_before_shape [] [] (Fault ZeroStep 2) 1 }
    ensures mask_against_left_side { Comes stages.mask_against_left_side [] [] (Fault Shape 2) 1 }
    ensures operands_against_one_another { Comes stages.operands_against_one_another [] [] (Fault Shape 2) 1 }
    ensures right_side_in_whole_before_mask_values { Comes stages.right_side_in_whole_before_mask_values [] []
        (Fault Bounds 2) 1 }
    ensures right_side_shape_before_mask_values { Comes stages.right_side_shape_before_mask_values [] []
        (Fault Shape 2) 1 }
    ensures mask_values_before_operations { Comes stages.mask_values_before_operations [] [] (Fault ZeroDivide 2) 1 }
    ensures operations_before_range { Comes stages.operations_before_range [] [] (Fault ZeroDivide 4) 7 }
    ensures range_before_stores { Comes stages.range_before_stores [] [] (Fault Overflow 3) 5 }
    ensures arguments_against_one_another { Comes stages.arguments_against_one_another [] [] (Fault Shape 2) 1 }
{}
