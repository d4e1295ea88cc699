//! The texts of one link, byte for byte, and how those of eleven end.
use crate::make;
use std::test::Fail;

const PROBLEM: &[u8] = b"(set-logic QF_UF)\n\
      (declare-sort U 0)\n\
      (declare-fun a0 () U)\n\
      (declare-fun a1 () U)\n\
      (declare-fun b1 () U)\n\
      (declare-fun c1 () U)\n\
      (assert (let ((x a0) (y a1)) (or (and (= x b1) (= b1 y)) (and (= x c1) (= c1 y)))))\n\
      (assert (not (= a0 a1)))\n\
      (check-sat)\n";

const PROOF: &[u8] =
    b"(assume h1 (let ((x a0) (y a1)) (or (and (= x b1) (= b1 y)) (and (= x c1) (= c1 y)))))\n\
      (anchor :step l1 :args ((:= (x U) a0) (:= (y U) a1)))\n\
      (step l1.1 (cl (= x a0)) :rule refl)\n\
      (step l1.2 (cl (= y a1)) :rule refl)\n\
      (step l1.3 (cl (= (= x b1) (= a0 b1))) :rule cong :premises (l1.1))\n\
      (step l1.4 (cl (= (= b1 y) (= b1 a1))) :rule cong :premises (l1.2))\n\
      (step l1.5 (cl (= (= x c1) (= a0 c1))) :rule cong :premises (l1.1))\n\
      (step l1.6 (cl (= (= c1 y) (= c1 a1))) :rule cong :premises (l1.2))\n\
      (step l1.7 (cl (= (and (= x b1) (= b1 y)) (and (= a0 b1) (= b1 a1)))) :rule cong :premises (l1.3 l1.4))\n\
      (step l1.8 (cl (= (and (= x c1) (= c1 y)) (and (= a0 c1) (= c1 a1)))) :rule cong :premises (l1.5 l1.6))\n\
      (step l1.9 (cl (= (or (and (= x b1) (= b1 y)) (and (= x c1) (= c1 y))) (or (and (= a0 b1) (= b1 a1)) (and (= a0 c1) (= c1 a1))))) \
      :rule cong :premises (l1.7 l1.8))\n\
      (step l1 (cl (= (let ((x a0) (y a1)) (or (and (= x b1) (= b1 y)) (and (= x c1) (= c1 y)))) (or (and (= a0 b1) (= b1 a1)) (and (= \
      a0 c1) (= c1 a1))))) :rule let)\n\
      (step e1 (cl (not (let ((x a0) (y a1)) (or (and (= x b1) (= b1 y)) (and (= x c1) (= c1 y))))) (or (and (= a0 b1) (= b1 a1)) (and \
      (= a0 c1) (= c1 a1)))) :rule equiv1 :premises (l1))\n\
      (anchor :step s1)\n\
      (assume s1.h (or (and (= a0 b1) (= b1 a1)) (and (= a0 c1) (= c1 a1))))\n\
      (anchor :step s1.l)\n\
      (assume s1.l.h (and (= a0 b1) (= b1 a1)))\n\
      (step s1.l.1 (cl (= a0 b1)) :rule and :premises (s1.l.h))\n\
      (step s1.l.2 (cl (= b1 a1)) :rule and :premises (s1.l.h))\n\
      (step s1.l.3 (cl (= a0 a1)) :rule trans :premises (s1.l.1 s1.l.2))\n\
      (step s1.l (cl (not (and (= a0 b1) (= b1 a1))) (= a0 a1)) :rule subproof :discharge (s1.l.h))\n\
      (anchor :step s1.r)\n\
      (assume s1.r.h (and (= a0 c1) (= c1 a1)))\n\
      (step s1.r.1 (cl (= a0 c1)) :rule and :premises (s1.r.h))\n\
      (step s1.r.2 (cl (= c1 a1)) :rule and :premises (s1.r.h))\n\
      (step s1.r.3 (cl (= a0 a1)) :rule trans :premises (s1.r.1 s1.r.2))\n\
      (step s1.r (cl (not (and (= a0 c1) (= c1 a1))) (= a0 a1)) :rule subproof :discharge (s1.r.h))\n\
      (step s1.o (cl (and (= a0 b1) (= b1 a1)) (and (= a0 c1) (= c1 a1))) :rule or :premises (s1.h))\n\
      (step s1.q (cl (= a0 a1)) :rule resolution :premises (s1.o s1.l s1.r))\n\
      (step s1 (cl (not (or (and (= a0 b1) (= b1 a1)) (and (= a0 c1) (= c1 a1)))) (= a0 a1)) :rule subproof :discharge (s1.h))\n\
      (step q1 (cl (= a0 a1)) :rule resolution :premises (h1 e1 s1))\n\
      (assume g (not (= a0 a1)))\n\
      (step z1 (cl (= a0 a1)) :rule trans :premises (q1))\n\
      (step z2 (cl) :rule resolution :premises (g z1))\n";

const PROOF_END: &[u8] = b"(assume g (not (= a0 a11)))\n\
      (step z1 (cl (= a0 a11)) :rule trans :premises (q1 q2 q3 q4 q5 q6 q7 q8 q9 q10 q11))\n\
      (step z2 (cl) :rule resolution :premises (g z1))\n";

#[test]
fn one_link(rt: HostRuntime) -> Result<(), Fail> {
    let (problem, proof) = make(rt.alloc(), 1)?;
    assert_eq!(rt; problem.as_slice(), PROBLEM);
    assert_eq!(rt; proof.as_slice(), PROOF);
    Ok(())
}

#[test]
fn end_of_eleven_links(rt: HostRuntime) -> Result<(), Fail> {
    let (problem, proof) = make(rt.alloc(), 11)?;
    assert!(rt;
        problem
            .as_slice()
            .ends_with(b"(assert (not (= a0 a11)))\n(check-sat)\n")
    );
    assert!(rt; proof.as_slice().ends_with(PROOF_END));
    Ok(())
}
