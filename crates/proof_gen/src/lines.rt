//! The templates of the lines.
ghost use Rattle.std.specs.Prelude.{◌≡◌};
ghost use Rattle.proof_gen.specs.Templates.{in_lines};
ghost use Rattle.proof_gen.specs.Texts.{heading_lines, declaration_lines, assertion_lines, block_lines};

/// How a problem begins.
#[tactic(auto, unfolding(crate::specs::Templates::in_lines, crate::specs::Texts::heading_lines))]
pub(crate) fn heading() -> &'static [u8]
    ensures { result.now ≡ in_lines heading_lines }
{
    b"(set-logic QF_UF)\n\
      (declare-sort U 0)\n\
      (declare-fun a0 () U)\n"
}

/// The declarations of a link.
#[tactic(auto, unfolding(crate::specs::Templates::in_lines, crate::specs::Texts::declaration_lines))]
pub(crate) fn declarations() -> &'static [u8]
    ensures { result.now ≡ in_lines declaration_lines }
{
    b"(declare-fun aI () U)\n\
      (declare-fun bI () U)\n\
      (declare-fun cI () U)\n"
}

/// The assertion of a link.
#[tactic(auto, unfolding(crate::specs::Templates::in_lines, crate::specs::Texts::assertion_lines))]
pub(crate) fn assertions() -> &'static [u8]
    ensures { result.now ≡ in_lines assertion_lines }
{
    b"(assert L)\n"
}

/// The commands of a link.
#[tactic(auto, unfolding(crate::specs::Templates::in_lines, crate::specs::Texts::block_lines))]
pub(crate) fn block() -> &'static [u8]
    ensures { result.now ≡ in_lines block_lines }
{
    b"(assume hI L)\n\
      (anchor :step lI :args ((:= (x U) aJ) (:= (y U) aI)))\n\
      (step lI.1 (cl (= x aJ)) :rule refl)\n\
      (step lI.2 (cl (= y aI)) :rule refl)\n\
      (step lI.3 (cl (= (= x bI) (= aJ bI))) :rule cong :premises (lI.1))\n\
      (step lI.4 (cl (= (= bI y) (= bI aI))) :rule cong :premises (lI.2))\n\
      (step lI.5 (cl (= (= x cI) (= aJ cI))) :rule cong :premises (lI.1))\n\
      (step lI.6 (cl (= (= cI y) (= cI aI))) :rule cong :premises (lI.2))\n\
      (step lI.7 (cl (= X A)) :rule cong :premises (lI.3 lI.4))\n\
      (step lI.8 (cl (= Y B)) :rule cong :premises (lI.5 lI.6))\n\
      (step lI.9 (cl (= Z O)) :rule cong :premises (lI.7 lI.8))\n\
      (step lI (cl (= L O)) :rule let)\n\
      (step eI (cl (not L) O) :rule equiv1 :premises (lI))\n\
      (anchor :step sI)\n\
      (assume sI.h O)\n\
      (anchor :step sI.l)\n\
      (assume sI.l.h A)\n\
      (step sI.l.1 (cl (= aJ bI)) :rule and :premises (sI.l.h))\n\
      (step sI.l.2 (cl (= bI aI)) :rule and :premises (sI.l.h))\n\
      (step sI.l.3 (cl (= aJ aI)) :rule trans :premises (sI.l.1 sI.l.2))\n\
      (step sI.l (cl (not A) (= aJ aI)) :rule subproof :discharge (sI.l.h))\n\
      (anchor :step sI.r)\n\
      (assume sI.r.h B)\n\
      (step sI.r.1 (cl (= aJ cI)) :rule and :premises (sI.r.h))\n\
      (step sI.r.2 (cl (= cI aI)) :rule and :premises (sI.r.h))\n\
      (step sI.r.3 (cl (= aJ aI)) :rule trans :premises (sI.r.1 sI.r.2))\n\
      (step sI.r (cl (not B) (= aJ aI)) :rule subproof :discharge (sI.r.h))\n\
      (step sI.o (cl A B) :rule or :premises (sI.h))\n\
      (step sI.q (cl (= aJ aI)) :rule resolution :premises (sI.o sI.l sI.r))\n\
      (step sI (cl (not O) (= aJ aI)) :rule subproof :discharge (sI.h))\n\
      (step qI (cl (= aJ aI)) :rule resolution :premises (hI eI sI))\n"
}
